use crate::{HashKey, Keyed, KeyedList, PlaceIndex};
use bk_cert::CertRef;
use bk_digest::Digest32;
use std::test::Fail;

// A digest with a number.
impl Keyed for (Digest32, usize) {
    ghost key_of = { λ e. e.0 };

    fn key(&self) -> &Digest32 {
        &self.0
    }
}

// A digest with this first byte and this last one.
fn digest(first: u8, last: u8) -> Digest32 {
    let mut bytes = [255; 32];
    bytes[0] = first;
    bytes[31] = last;
    Digest32::new(bytes)
}

fn place(round: u32, author: u8) -> CertRef {
    CertRef { round, author }
}

#[test]
fn nothing_is_found_in_empty_rows(rt: HostRuntime) -> Result<(), Fail> {
    let index = PlaceIndex::new(rt.alloc(), 4);
    assert!(rt; index.get(place(1, 0)).is_none() && index.get(place(0, 0)).is_none());
    Ok(())
}

// Author 255 is no member, and round 0 has no row.
#[test]
fn places_keep_their_first_numbers(rt: HostRuntime) -> Result<(), Fail> {
    let mut index = PlaceIndex::new(rt.alloc(), 2);
    for round in 0..60u32 {
        for author in [0, 1, 255] {
            let number = round as usize * 256 + author as usize;
            assert_eq!(rt; index.first_of(place(round, author), number)?, None);
        }
    }
    assert_eq!(rt; index.first_of(place(1, 255), 5)?, Some(511));
    assert_eq!(rt; index.first_of(place(59, 0), 5)?, Some(15_104));
    assert_eq!(rt; index.get(place(0, 1)), Some(1));
    assert_eq!(rt; index.get(place(1, 255)), Some(511));
    assert_eq!(rt; index.get(place(59, 0)), Some(15_104));
    assert_eq!(rt; index.get(place(60, 0)), None);
    assert_eq!(rt; index.get(place(59, 2)), None);
    Ok(())
}

// Two members have rows for 576 rounds before there is any place.
#[test]
fn rounds_far_apart_are_found(rt: HostRuntime) -> Result<(), Fail> {
    let mut index = PlaceIndex::new(rt.alloc(), 2);
    let rounds = [4_294_967_295, 1, 100_000, 99_999];
    for (number, round) in rounds.into_iter().enumerate() {
        assert_eq!(rt; index.first_of(place(round, 1), number)?, None);
    }
    for round in 1..10_000u32 {
        assert_eq!(rt; index.first_of(place(round, 0), round as usize + 10)?, None);
    }
    assert_eq!(rt; index.first_of(place(100_000, 0), 7)?, None);
    for (number, round) in rounds.into_iter().enumerate() {
        assert_eq!(rt; index.get(place(round, 1)), Some(number));
    }
    assert_eq!(rt; index.get(place(100_000, 0)), Some(7));
    assert_eq!(rt; index.get(place(9_999, 0)), Some(10_009));
    assert_eq!(rt; index.get(place(10_000, 0)), None);
    Ok(())
}

#[test]
fn a_place_is_given_another_number(rt: HostRuntime) -> Result<(), Fail> {
    let mut index = PlaceIndex::new(rt.alloc(), 2);
    for at in [place(3, 1), place(4_000_000, 1)] {
        let first = index.first_of(at, 8)?;
        assert!(rt; first.is_none() && index.get(at).is_some());
        index.set(at, 4);
        assert_eq!(rt; index.get(at), Some(4));
    }
    assert_eq!(rt; index.get(place(3, 0)), None);
    Ok(())
}

#[test]
fn a_number_above_what_an_entry_holds_is_refused(rt: HostRuntime) -> Result<(), Fail> {
    let mut index = PlaceIndex::new(rt.alloc(), 2);
    assert!(rt; index.first_of(place(1, 0), 4_294_967_295).is_err());
    assert_eq!(rt; index.get(place(1, 0)), None);
    assert_eq!(rt; index.first_of(place(1, 0), 4_294_967_294)?, None);
    assert_eq!(rt; index.get(place(1, 0)), Some(4_294_967_294));
    Ok(())
}

#[test]
fn each_digest_keeps_its_index_while_the_table_grows(rt: HostRuntime) -> Result<(), Fail> {
    let mut list: KeyedList<Digest32> = KeyedList::new(rt.alloc(), HashKey::fixed());
    for key in 0..200u8 {
        assert_eq!(rt; list.first_of(digest(key, 0))?, None);
    }
    for key in 0..200u8 {
        assert_eq!(rt; list.get(&digest(key, 0)), Some(key as usize));
    }
    assert_eq!(rt; list.get(&digest(200, 0)), None);
    assert_eq!(rt; list.get(&digest(0, 1)), None);
    Ok(())
}

#[test]
fn entries_are_found_by_their_keys(rt: HostRuntime) -> Result<(), Fail> {
    let mut list: KeyedList<Digest32> = KeyedList::new(rt.alloc(), HashKey::fixed());
    assert!(rt; list.is_empty() && list.get(&digest(9, 0)).is_none());
    for last in 0..40u8 {
        assert_eq!(rt; list.first_of(digest(9, last))?, None);
    }
    assert!(rt; list.len() == 40 && !list.is_empty());
    for last in 0..40u8 {
        assert_eq!(rt; list.get(&digest(9, last)), Some(last as usize));
        assert!(rt; list.as_slice()[last as usize] == digest(9, last));
    }
    assert_eq!(rt; list.first_of(digest(9, 7))?, Some((7, digest(9, 7))));
    assert!(rt; list.len() == 40 && list.get(&digest(9, 40)).is_none());
    Ok(())
}

#[test]
fn the_last_entry_is_dropped(rt: HostRuntime) -> Result<(), Fail> {
    let mut list: KeyedList<Digest32> = KeyedList::new(rt.alloc(), HashKey::fixed());
    list.drop_last();
    assert_eq!(rt; list.first_of(digest(1, 0))?, None);
    assert_eq!(rt; list.first_of(digest(2, 0))?, None);
    list.drop_last();
    assert_eq!(rt; list.get(&digest(1, 0)), Some(0));
    assert_eq!(rt; list.get(&digest(2, 0)), None);
    assert_eq!(rt; list.first_of(digest(3, 0))?, None);
    assert_eq!(rt; list.get(&digest(3, 0)), Some(1));
    assert_eq!(rt; list.get(&digest(2, 0)), None);
    Ok(())
}

#[test]
fn an_entry_is_replaced(rt: HostRuntime) -> Result<(), Fail> {
    let mut list: KeyedList<(Digest32, usize)> = KeyedList::new(rt.alloc(), HashKey::new(&rt));
    let key = digest(1, 0);
    list.push((key, 7))?;
    list.replace(0, (key, 70));
    assert!(rt; list.get(&key) == Some(0) && list.as_slice()[0].1 == 70);
    Ok(())
}

// Of entries with one key the first is found, also where the others are dropped.
#[test]
fn the_first_of_a_key_is_found(rt: HostRuntime) -> Result<(), Fail> {
    let mut list: KeyedList<Digest32> = KeyedList::new(rt.alloc(), HashKey::fixed());
    for key in [4u8, 5, 6, 7, 5] {
        list.push(digest(key, 0))?;
    }
    for _ in 0..2 {
        assert_eq!(rt; list.get(&digest(5, 0)), Some(1));
        list.drop_last();
    }
    assert!(rt; list.len() == 3 && list.get(&digest(7, 0)).is_none());
    Ok(())
}

ghost use Rattle.std.specs.Prelude.{◌≡◌, ◌++◌};
ghost use Rattle.std.specs.Int.{w64, to_be_bytes};

/// What an account holds.
#[derive(Clone, Copy, Debug, PartialEq, Eq)]
pub struct Account {
    /// Its money.
    pub balance: u64,
    /// How many transactions of its own have counted.
    pub seq: u64,
}

/// The data of an account's leaf in the tree of all accounts: id, balance and sequence number, eight bytes each,
/// big-endian.
pub fn account_leaf(id: u64, account: Account) -> [u8; 24]
    ensures { result ≡ to_be_bytes w64 id ++ to_be_bytes w64 account.balance
        ++ to_be_bytes w64 account.seq }
{
    let [a, b, c, d, e, f, g, h] = id.to_be_bytes();
    let [i, j, k, l, m, n, o, p] = account.balance.to_be_bytes();
    let [q, r, s, t, u, v, w, x] = account.seq.to_be_bytes();
    [
        a, b, c, d, e, f, g, h, i, j, k, l, m, n, o, p, q, r, s, t, u, v, w, x,
    ]
}

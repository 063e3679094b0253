//! That each value has one encoding, as laws for callers. A caller has `IsBytes` of each slice of bytes.

ghost use Rattle.std.specs.Prelude.{◌≡◌, ℕ, List, Some};
ghost use Rattle.bk_base.specs.Numbers.{IsBytes};
ghost use Rattle.bk_tx.specs.Transaction.{Transaction};
ghost use Rattle.bk_tx.specs.Spelling.{transaction_text, IsTransaction, batch_text, IsBatch};
ghost use Rattle.bk_tx.specs.Reading.{transaction_of, texts_of};

/// Bytes are read as a transaction exactly where they are its encoding.
pub fn one_spelling_of_a_transaction()
    ensures again { (t : Transaction) → IsTransaction t
        → transaction_of (transaction_text t) ≡ Some t }
    ensures only { (bytes : List ℕ) (t : Transaction) → IsBytes bytes
        → transaction_of bytes ≡ Some t → IsTransaction t × (bytes ≡ transaction_text t) }
{}

/// Bytes are read as a batch of these texts exactly where they are its encoding.
pub fn one_spelling_of_a_batch()
    ensures again { (texts : List (List ℕ)) → IsBatch texts
        → texts_of (batch_text texts) ≡ Some texts }
    ensures only { (bytes : List ℕ) (texts : List (List ℕ)) → IsBytes bytes
        → texts_of bytes ≡ Some texts → IsBatch texts × (bytes ≡ batch_text texts) }
{}

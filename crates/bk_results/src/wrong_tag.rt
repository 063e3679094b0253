/// A tag of a certificate that is not that of its signer's key.
#[derive(Clone, Copy, Debug, PartialEq, Eq)]
pub struct WrongTag {
    /// The number of the certificate's frame.
    pub frame: u64,
    /// The member whose tag it should be.
    pub signer: u8,
}

//! Laws of the definitions, each the contract of a function that does nothing.

ghost use Rattle.bk_cert.specs.Laws.{CertificateIsSpelled, CertificateIsRead, HeaderThenSeal, OneHeader, EqualIsSame};

/// A certificate's bytes and its values are two forms of one thing, and its header's bytes come first.
pub fn certificate_grammar()
    ensures spelled { CertificateIsSpelled }
    ensures read { CertificateIsRead }
    ensures header_first { HeaderThenSeal }
    ensures one_header { OneHeader }
{}

/// `==` of headers is true exactly where they are the same.
pub fn equal_headers()
    ensures { EqualIsSame }
{}

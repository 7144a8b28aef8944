//! Laws of the written texts of certificates, as the contract of a function with an empty body.

ghost use Rattle.cert_writing.specs.Sizes.{TextsFit};

/// The text of a certificate has at most 192 MiB if its schedule, if it has one, has at most 200,000 choices.
pub fn texts_fit()
    ensures { TextsFit }
{}

//! Laws of certificates' texts, as contracts of functions with an empty body.

ghost use Rattle.cert_format.specs.LineLaws.{InstLines, NodeLines};
ghost use Rattle.cert_format.specs.Exact.{ReadCertificateIsSpelled, SpelledCertificateIsRead, CertificatesHaveOneText, PartsMakeClaims};
ghost use Rattle.cert_format.specs.Refusals.{ReadCertificateIsDue};

use assumption_files::laws::list_texts;
use cert_words::laws::key_words;
use line_reading::laws::word_laws;
use node_keys::laws::keys_are_ordered;
use witness_replay::laws::{reading_is_exact, reading_is_text};

/// Reading and spelling of the lines of instances and nodes are inverse.
pub fn item_lines()
    ensures instances { InstLines }
    ensures nodes { NodeLines }
{
    word_laws();
    key_words();
}

/// Reading and spelling of certificates are inverse. Two certificates with one text are equal if they are for one device, or if the text
/// says its device. A refused line has the reason. The parts of a text form a claim.
pub fn certificate_texts()
    ensures read { ReadCertificateIsSpelled }
    ensures spelled { SpelledCertificateIsRead }
    ensures one { CertificatesHaveOneText }
    ensures due { ReadCertificateIsDue }
    ensures parts { PartsMakeClaims }
{
    word_laws();
    item_lines();
    list_texts();
    keys_are_ordered();
    reading_is_exact();
    reading_is_text();
}

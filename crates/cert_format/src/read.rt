//! The certificate that a text is.
ghost use Rattle.std.specs.Prelude.{◌≡◌, ◌≢◌, ◌≤◌, length, Result, IfOk, IfErr, IfSome, IfNone};
ghost use Rattle.words.specs.Answers.{UnlessMemory};
ghost use Rattle.cert_format.specs.declared.cert.Cert.{Cert};
ghost use Rattle.cert_format.specs.declared.fault.CertRead.{CertRead};
ghost use Rattle.cert_format.specs.Fields.{HasNoLine, IsLineThen};
ghost use Rattle.cert_format.specs.Reads.{Reads, Spells, Refuses};

use crate::cert::Cert;
use crate::draft::Draft;
use crate::fault::CertRead;
use crate::laws::one_answer;
use crate::limits::LONGEST;
use crate::line::Line;
use crate::number::split_at;
use crate::parse::line_of;
use std::alloc::Global;

/// The certificate whose text the bytes are.
///
/// # Errors
///
/// `Syntax` where the bytes are no certificate's text, with the first line that is not as the form wants it after the
/// lines before it. `Memory` may come for any bytes.
pub fn read_cert(alloc: Global, bytes: &[u8]) -> Result<Cert, CertRead>
    requires { length bytes.now ≤ LONGEST }
    ensures accepted { IfOk result (Spells bytes.now) }
    ensures refused { IfErr result (λ fault. fault ≢ CertRead.Memory → Refuses bytes.now fault) }
    ensures only { (answer : Result Cert CertRead) → Reads bytes.now answer → UnlessMemory CertRead.Memory (λ given. given ≡ answer) result }
{
    // The law that shows `only`; it does nothing.
    one_answer();
    let mut draft = Draft::Empty;
    let mut rest = bytes;
    let mut number: u32 = 1;
    while let Some((line, after)) = line_at(rest) {
        let Some(more) = draft.next(alloc, line)? else {
            return Err(CertRead::Syntax { line: number });
        };
        draft = more;
        rest = after;
        number += 1;
    }
    if !rest.is_empty() {
        return Err(CertRead::Syntax { line: number });
    }
    draft.whole().ok_or(CertRead::Syntax { line: number })
}

/// The line that the bytes begin with, and the bytes after its line feed.
fn line_at(bytes: &[u8]) -> Option<(Line, &[u8])>
    ensures found { IfSome result (λ field. IsLineThen bytes.now field.0 field.1.now) }
    ensures none { IfNone result (HasNoLine bytes.now) }
{
    let (line, rest) = split_at(bytes, b'\n')?;
    Some((line_of(line)?, rest))
}

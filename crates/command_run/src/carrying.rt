//! Writes texts and prints a line, for any command. Depends on `host`.
ghost use Rattle.std.specs.Prelude.{◌≡◌, false};
ghost use Rattle.command_run.specs.Replies.{line_bytes, texts_of};
ghost use Rattle.command_run.specs.Steps.{CarriesOut};

use crate::reply::{Reply, Text};
use crate::status::Status;
use host::{Host, say_all, write_file};

/// Writes the texts of a reply in order and prints its line. Returns the reply's status, or `Failed` at the first call that
/// fails. Allocates no memory.
pub fn carry_out<H: Host>(host: &mut H, reply: &Reply) -> Status
    requires { (H.state host.old).writing ≡ false }
    ensures { CarriesOut (texts_of reply.now.texts.items) (line_bytes reply.now.line) reply.now.status result (H.state host.old) (H.state host.new) }
{
    conclude(host, &reply.texts, reply.line.as_bytes(), reply.status)
}

/// Writes the texts in order and prints the line. Returns the status, or `Failed` at the first call that fails.
#[tactic(auto, using(crate::proofs::Written::written_none))]
pub fn conclude<H: Host>(host: &mut H, texts: &[Text], line: &[u8], status: Status) -> Status
    requires { (H.state host.old).writing ≡ false }
    ensures { CarriesOut (texts_of texts.now) line.now status result (H.state host.old) (H.state host.new) }
{
    for text in texts {
        match write_file(host, text.name, &text.bytes) {
            Ok(()) => {}
            Err(_) => return Status::Failed,
        }
    }
    match say_all(host, line) {
        Ok(()) => status,
        Err(_) => Status::Failed,
    }
}

//! Writes the texts of mesh writers, and prints a line. Depends on `host`, and on the writers of `mesh_form`.
ghost use Rattle.std.specs.List.{zip};
ghost use Rattle.std.specs.Prelude.{◌≡◌, false, length, map, string_bytes, All};
ghost use Rattle.mesh_form.specs.declared.stage.Stage.TheVariants.{Ended};
ghost use Rattle.command_run.specs.Steps.{CarriesOut};
ghost use Rattle.command_run.specs.declared.status.Status.TheVariants.{Done};

use command_run::Status;
use host::{Host, say_all, write_file};
use mesh_form::Form;

/// Writes the text of each writer to its output, in order, and prints the line.
pub fn write_forms<H: Host>(
    host: &mut H,
    outputs: &[String],
    forms: &[Box<dyn Form>],
    line: &[u8],
) -> Status
    requires closed { (H.state host.old).writing ≡ false }
    requires as_many { length outputs.now ≡ length forms.now }
    requires ended { All (λ r. r.stage ≡ Ended) (map received forms.now) }
    ensures { CarriesOut (zip (map string_bytes outputs.now) (map text_of forms.now)) line.now Done result (H.state host.old) (H.state host.new) }
{
    for k in 0..forms.len() {
        match write_file(host, outputs[k].as_str(), text_of(&forms[k])) {
            Ok(()) => {}
            Err(_) => return Status::Failed,
        }
    }
    match say_all(host, line) {
        Ok(()) => Status::Done,
        Err(_) => Status::Failed,
    }
}

/// Returns the text of a writer that has ended.
fn text_of(form: &Box<dyn Form>) -> &[u8]
    requires { (received form.now).stage ≡ Ended }
    ensures { result.now ≡ text_of form.now }
{
    form.text()
}

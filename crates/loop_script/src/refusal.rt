// Refusals, as they are printed.
ghost use Rattle.std.specs.Prelude.{◌++◌, ◌∷◌, [], Some, OnOk};
ghost use Rattle.std.specs.Io.KnownBytes.{Appends};
ghost use Rattle.loop_script.specs.Refusals.{words_of};

use loop_store::StoreFault;
use std::io::Write;
use std::{fmt, io};

/// A refusal's words: `refused`, its number and its name; after `Damaged` the number of the kind, and after
/// `ClipNotHeld` that of the frame. They are one space apart.
#[derive(Clone, Copy, Debug)]
pub struct RefusalWords(pub StoreFault);

impl fmt::Display for RefusalWords {
    ghost output = { λ refusal. Some (words_of refusal.0) };

    fn fmt<W: fmt::Write>(&self, f: &mut fmt::Formatter<W>) -> fmt::Result {
        let number = self.0.number();
        let name = self.0.name();
        match self.0 {
            StoreFault::Damaged(damage) => {
                let kind = damage.number();
                write!(f, "refused {number} {name} {kind}")
            }
            StoreFault::ClipNotHeld(frame) => write!(f, "refused {number} {name} {frame}"),
            _ => write!(f, "refused {number} {name}"),
        }
    }
}

/// Prints a refusal's words on a line.
pub fn print_refusal<W: Write>(out: &mut W, fault: StoreFault) -> io::Result<()>
    ensures { OnOk result
        (Appends (W.contents out.old) (W.contents out.new) (words_of fault ++ 10 ∷ [])) }
{
    let words = RefusalWords(fault);
    writeln!(out, "{words}")
}

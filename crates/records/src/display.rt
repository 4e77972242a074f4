// A refused reading as text.
ghost use Rattle.std.specs.Prelude.{◌≡◌, Some};
ghost use Rattle.records.specs.Texts.{refusal_text};

use crate::SheetFault;
use std::fmt;

// The number of the fault, the record, and where in the input it lies.
impl fmt::Display for SheetFault {
    ghost output = { λ e. Some (refusal_text e) };

    fn fmt<W: fmt::Write>(&self, f: &mut fmt::Formatter<W>) -> fmt::Result {
        let number = self.number();
        let index = self.index();
        let offset = self.offset();
        write!(f, "REFUSED {number} {index} {offset}")
    }
}

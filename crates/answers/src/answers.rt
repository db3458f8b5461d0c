// The answer lines of a script, each written over the front of a lent buffer.
ghost use Rattle.std.specs.Prelude.{◌≡◌, ◌≤◌, length};
ghost use Rattle.interfaces.specs.Cells.{number_of};
ghost use Rattle.interfaces.specs.Refusals.{said, told};
ghost use Rattle.answers.specs.Answers.{ok_line, refusal_line, value_line};
ghost use Rattle.answers.specs.Fronts.{line_answer, line_left};

use crate::line::write_line;
use interfaces::cell::Cell;
use interfaces::refusal::Refusal;
use interfaces::value::Printed;
use names::write_name;
use whole::write_number;

/// `ok`
pub fn write_ok(buffer: &mut [u8]) -> Result<usize, Refusal>
    ensures answer { told result ≡ line_answer ok_line buffer.old }
    ensures left { buffer.new ≡ line_left ok_line buffer.old }
{
    write_line(buffer, &[b"ok\n"])
}

/// `no NUMBER`, or `no 6 PLACE`
pub fn write_refusal(buffer: &mut [u8], refusal: Refusal) -> Result<usize, Refusal>
    ensures answer { told result ≡ line_answer (refusal_line (said refusal)) buffer.old }
    ensures left { buffer.new ≡ line_left (refusal_line (said refusal)) buffer.old }
    ensures short { length (refusal_line (said refusal)) ≤ 39 }
{
    let number = write_number(u32::from(refusal.number()));
    match refusal.place() {
        Some(place) => {
            let place = write_number(u32::from(place));
            write_line(
                buffer,
                &[b"no ", number.as_slice(), b" ", place.as_slice(), b"\n"],
            )
        }
        None => write_line(buffer, &[b"no ", number.as_slice(), b"\n"]),
    }
}

/// `CELL = VALUE`
pub fn write_value<P: Printed>(buffer: &mut [u8], cell: Cell, value: &P) -> Result<usize, Refusal>
    ensures answer { told result ≡ line_answer (value_line (number_of cell) (P.Printed.written value.now)) buffer.old }
    ensures left { buffer.new ≡ line_left (value_line (number_of cell) (P.Printed.written value.now)) buffer.old }
    ensures short { length (value_line (number_of cell) (P.Printed.written value.now)) ≤ 39 }
{
    let name = write_name(cell);
    let form = value.write();
    write_line(buffer, &[name.as_slice(), b" = ", form.as_slice(), b"\n"])
}

// The walk of a table over a body, by the body's index: each row's tag, form and range.
ghost use Rattle.std.specs.Prelude.{◌≡◌, true, ◌≤◌, map};
ghost use Rattle.std.proofs.Math.Option.{none, some};
ghost use Rattle.value.specs.Value.{bad_price};
ghost use Rattle.value.specs.Readers.{checked};
ghost use Rattle.answer.specs.Numbers.{nine_digits};
ghost use Rattle.field.specs.Index.{column_of};
ghost use Rattle.field.specs.Look.{seen_by};
ghost use Rattle.table.specs.declared.Form.TheVariants as form;
ghost use Rattle.table.specs.Rows.{codes_of, table_of, tag_of, here_of, rows_in};
ghost use Rattle.table.specs.Steps.{number_of, is_security, in_range, value_check, check_fault, tag_fault, applies, row_fault, walk, found};

use super::rows::{HEADER_ROWS, rows_of};
use super::{Asked, Codes, Form, Given, Range, Row, Where};
use answer::{Fault, Kind, NINE_DIGITS, Setup, reasons};
use field::Look;
use value::Flaw;

// The number of a tag. One that is not there has 0, without a call: every message is asked for the numbers of some tags that it does not have.
pub fn number_at(look: Look, tag: u32) -> u32
    ensures value { result ≡ number_of (seen_by look.entry) tag }
    ensures upper_bound { result ≤ nine_digits }
{
    let v = look.value(tag);
    if v.is_empty() {
        return 0;
    }
    value::number_of(v)
}

// A value of good form, by whether it is in range.
fn fitted(fits: bool) -> Result<(), Flaw>
    ensures { result ≡ checked none fits }
{
    if fits { Ok(()) } else { Err(Flaw::Range) }
}

// A price has no range.
fn check_price(v: &[u8]) -> Result<(), Flaw>
    ensures { result ≡ checked (bad_price v.now) true }
{
    value::read_price(v)?;
    Ok(())
}

// "are one byte, anything else 5": which.
fn codes_of(codes: Codes) -> &'static [u8]
    ensures { result.now ≡ codes_of codes }
{
    match codes {
        Codes::YesNo => b"YN",
        Codes::No => b"N",
        Codes::New => b"0",
        Codes::Side => b"12",
        Codes::Filled => b"12",
        Codes::Legs => b"23",
        Codes::Transactions => b"012",
        Codes::Corrections => b"12345",
    }
}

// 167: "OPT" or "MLEG".
fn is_security(v: &[u8]) -> bool
    ensures { result ≡ is_security v.now }
{
    matches!(v, b"OPT" | b"MLEG")
}

// Whether a row is asked for.
fn applies(place: Where, given: Given) -> bool
    ensures { result ≡ applies given place }
{
    match place {
        Where::Always => true,
    }
}

// "bad form 6, out of range 5".
fn flaw_fault(flaw: Flaw, tag: u32) -> Fault
    ensures { some result ≡ check_fault tag (Err flaw) }
{
    match flaw {
        Flaw::Form(at) => Fault {
            reason: reasons::WRONG_FORM,
            tag,
            at,
        },
        Flaw::Range => Fault::of(reasons::WRONG_VALUE, tag),
    }
}

// What judges the fields of a message: a look at its body, and what it is judged by beside.
#[derive(Clone, Copy)]
struct Judge<'a> {
    look: Look<'a, 'a>,
    given: Given,
}

impl Judge<'_> {
    // Whether a number, or a text's length, is in range. It is laid out where it is asked, since a call would cost as much as the question.
    #[inline(always)]
    fn is_in_range(self, range: Range, n: usize) -> bool
        ensures { result ≡ in_range self.entry.given (seen_by self.entry.look) range n }
    {
        match range {
            Range::Of(low, high) => low as usize <= n && n <= high as usize,
            Range::Written => 1 <= n && n < self.given.o as usize,
            Range::NoneOrFrom(tag) => n == 0 || number_at(self.look, tag) as usize <= n,
            Range::Any => true,
        }
    }

    // "Numbers have digits only, 1 to 9", and the range.
    fn check_number(self, range: Range, v: &[u8]) -> Result<(), Flaw>
        ensures { result ≡ value_check self.entry.given (seen_by self.entry.look) (form.Number range) v.now }
    {
        let n = value::read_number(v, 0, NINE_DIGITS)?;
        fitted(self.is_in_range(range, n as usize))
    }

    // "all three of bytes 33 to 126", and the length.
    fn check_graph(self, range: Range, v: &[u8]) -> Result<(), Flaw>
        ensures { result ≡ value_check self.entry.given (seen_by self.entry.look) (form.Graph range) v.now }
    {
        value::read_graph(v, 0, v.len())?;
        fitted(self.is_in_range(range, v.len()))
    }

    // Whether a value is of a form and in its range.
    fn check_value(self, form: Form, v: &[u8]) -> Result<(), Flaw>
        ensures { result ≡ value_check self.entry.given (seen_by self.entry.look) form v.now }
    {
        match form {
            Form::Number(range) => self.check_number(range, v),
            Form::Price => check_price(v),
            Form::Time => value::read_time(v),
            Form::Text(range) => fitted(self.is_in_range(range, v.len())),
            Form::Graph(range) => self.check_graph(range, v),
            Form::Code(codes) => value::read_code(v, codes_of(codes)),
            Form::Security => fitted(is_security(v)),
        }
    }

    // "each tag: missing 1, twice 5, bad form 6, out of range 5". The tag is given with its column.
    fn tag_fault(self, asked: Asked, column: usize) -> Result<(), Fault>
        requires { column ≡ column_of asked.tag }
        ensures { found result ≡ tag_fault self.entry.given (seen_by self.entry.look) asked.tag asked.needed asked.form }
    {
        match self.look.count_in(column) {
            0 if asked.needed => Err(Fault::of(reasons::MISSING, asked.tag)),
            0 => Ok(()),
            1 => self
                .check_value(asked.form, self.look.value_in(column))
                .map_err(|flaw| flaw_fault(flaw, asked.tag)),
            _ => Err(Fault::of(reasons::WRONG_VALUE, asked.tag)),
        }
    }

    // The fault of a row, given with its tag's column. One that does not apply is passed over.
    fn row_fault(self, row: Row, column: usize) -> Result<(), Fault>
        requires { column ≡ column_of (tag_of row) }
        ensures { found result ≡ row_fault self.entry.given (seen_by self.entry.look) row }
    {
        let asked = row.asked();
        if !applies(asked.place, self.given) {
            return Ok(());
        }
        self.tag_fault(asked, column)
    }

    // The rows of a list, one after another.
    fn walk_rows(self, rows: &[(Row, usize)]) -> Result<(), Fault>
        requires { rows.now ≡ map here_of (rows_in rows.now) }
        ensures { found result ≡ walk self.entry.given (seen_by self.entry.look) (rows_in rows.now) }
    {
        for (row, column) in rows {
            self.row_fault(*row, *column)?;
        }
        Ok(())
    }
}

// "The table of its type, top down": the header's rows, then the type's own.
pub(crate) fn walk(setup: Setup, given: Given, kind: Kind, look: Look) -> Result<(), Fault>
    ensures { found result ≡ walk given (seen_by look.entry) (table_of setup kind) }
{
    let judge = Judge { look, given };
    judge.walk_rows(&HEADER_ROWS)?;
    judge.walk_rows(rows_of(kind))
}

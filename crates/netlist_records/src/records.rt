// The records of lines.
ghost use Rattle.netlist_model.specs.Records.{gate_in, header_in, laid_out, line_of, name_line, name?, name_in, operation_of, record_of};
ghost use Rattle.text.specs.Numerals.{numeral_of};
ghost use Rattle.text.specs.Split.{split_at};
ghost use Rattle.std.specs.Prelude.{get_or, length, Some, [], ◌≡◌};

use netlist_model::{Operation, Record};

const TAB: u8 = b'\t';

// The record of a line without its end byte, if it has the layout of one.
#[tactic(auto, unfolding(netlist_model::specs::Records::record_of, netlist_model::specs::Records::fields_record))]
pub fn read_record(line: &[u8]) -> Option<Record>
    ensures { result ≡ record_of line.now }
{
    let fields = text::part_count(line, TAB);
    if is_laid_out(line, fields, 5, b"N") {
        return read_header(line);
    }
    if is_laid_out(line, fields, 2, b"I") {
        return is_name(text::part(line, 1, TAB)).then_some(Record::Name);
    }
    if is_laid_out(line, fields, 4, b"G") {
        return read_gate(line);
    }
    if is_laid_out(line, fields, 2, b"O") {
        return number(line, 1).map(Record::Output);
    }
    if is_laid_out(line, fields, 2, b"C") {
        return number(line, 1).map(Record::Constraint);
    }
    None
}

// The name in the line of an I record, without its end byte.
pub fn name_in(line: &[u8]) -> &[u8]
    requires { record_of line.now ≡ Some Record.Name }
    ensures { name_line result.now ≡ line_of line.now }
{
    text::part(line, 1, TAB)
}

// The operation that a field names, if it names one.
#[tactic(auto, unfolding(netlist_model::specs::Records::operation_of))]
pub fn operation_of(field: &[u8]) -> Option<Operation>
    ensures { result ≡ operation_of field.now }
{
    if text::same(field, b"and") {
        return Some(Operation::And);
    }
    if text::same(field, b"or") {
        return Some(Operation::Or);
    }
    if text::same(field, b"xor") {
        return Some(Operation::Xor);
    }
    None
}

// Whether the number of a line's fields, which is `fields`, is `count`, and the first of them is `letter`.
fn is_laid_out(line: &[u8], fields: usize, count: usize, letter: &[u8]) -> bool
    requires { fields ≡ length (split_at 9 line.now) }
    ensures { result ≡ laid_out count letter.now (split_at 9 line.now) }
{
    fields == count && text::same(text::part(line, 0, TAB), letter)
}

// The number in field `k`, if it is one.
fn number(line: &[u8], k: usize) -> Option<u32>
    ensures { result ≡ numeral_of (get_or (split_at 9 line.now) k []) }
{
    text::parse(text::part(line, k, TAB))
}

fn read_header(line: &[u8]) -> Option<Record>
    ensures { result ≡ header_in (split_at 9 line.now) }
{
    Some(Record::Header {
        edition: number(line, 1)?,
        inputs: number(line, 2)?,
        gates: number(line, 3)?,
        outputs: number(line, 4)?,
    })
}

// Whether a field is a name.
fn is_name(field: &[u8]) -> bool
    ensures { result ≡ name? field.now }
{
    if field.is_empty() || netlist_model::MAX_NAME < field.len() {
        return false;
    }
    field.iter().all(|b| b.is_ascii_alphanumeric())
}

fn read_gate(line: &[u8]) -> Option<Record>
    ensures { result ≡ gate_in (split_at 9 line.now) }
{
    Some(Record::Gate {
        op: operation_of(text::part(line, 1, TAB))?,
        p: number(line, 2)?,
        q: number(line, 3)?,
    })
}

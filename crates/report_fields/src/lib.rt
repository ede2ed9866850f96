// A line under way, and its fields as bytes.
#![tactic(auto)]

ghost use Rattle.report_format.specs.Report.{setting_field};
ghost use Rattle.std.specs.Prelude.{◌≡◌};

use report_format::Word;

// The bytes lent for a line or for a report, and how many of them are written.
// std's `write!` says what it wrote only of an `Ok`, and no clause rules out an `Err`; here each field is promised.
#[derive(Drop)]
pub struct Line<'a> {
    pub out: &'a mut [u8],
    pub at: usize,
}

impl<'a> Line<'a> {
    ghost use Rattle.std.specs.Prelude.{◌+◌, length, [], ◌++◌, ◌∷◌};
    ghost use Rattle.report_fields.specs.code.Line.{Added, HasRoom};
    ghost use Rattle.report_format.specs.Report.{NUMBER_DIGITS, WORD_LETTERS, vertex_field, word_bytes};
    ghost use Rattle.text.specs.Decimal.{decimal};

    // Adds the word of a reply and a tab.
    pub fn put_word(&mut self, word: Word)
        requires { HasRoom self.old (WORD_LETTERS + 1) }
        ensures { Added self.old (WORD_LETTERS + 1) (word_bytes word ++ 9 ∷ []) self.new }
    {
        self.put(match word {
            Word::Equal => b"equal\t",
            Word::Different => b"different\t",
            Word::Size => b"size\t",
            Word::Rows => b"rows\t",
            Word::Steps => b"steps\t",
        });
    }

    // Adds a setting, or `-` for an empty one, and a tab.
    pub fn put_setting(&mut self, setting: &[u8])
        requires { HasRoom self.old (length setting.now + 2) }
        ensures { Added self.old (length setting.now + 2) (setting_field setting.now ++ 9 ∷ []) self.new }
    {
        self.put(field_of(setting));
        self.put(b"\t");
    }

    // Adds a vertex number, or `-` for none, and a tab.
    pub fn put_vertex(&mut self, vertex: Option<u32>)
        requires { HasRoom self.old (NUMBER_DIGITS + 1) }
        ensures { Added self.old (NUMBER_DIGITS + 1) (vertex_field vertex ++ 9 ∷ []) self.new }
    {
        match vertex {
            Some(n) => self.put_number(n, b'\t'),
            None => self.put(b"-\t"),
        }
    }

    // Adds two numbers, with a tab between them and the byte `stop` after them.
    pub fn put_pair(&mut self, first: u32, second: u32, stop: u8)
        requires { HasRoom self.old (NUMBER_DIGITS + 1 + (NUMBER_DIGITS + 1)) }
        ensures { Added self.old (NUMBER_DIGITS + 1 + (NUMBER_DIGITS + 1)) ((decimal first ++ 9 ∷ []) ++ (decimal second ++ stop ∷ [])) self.new }
    {
        self.put_number(first, b'\t');
        self.put_number(second, stop);
    }

    // Adds a number and the byte `stop` after it.
    pub fn put_number(&mut self, n: u32, stop: u8)
        requires { HasRoom self.old (NUMBER_DIGITS + 1) }
        ensures { Added self.old (NUMBER_DIGITS + 1) (decimal n ++ stop ∷ []) self.new }
    {
        self.put_digits(n);
        self.put(&[stop]);
    }

    // Adds the digits of a number.
    fn put_digits(&mut self, n: u32)
        requires { HasRoom self.old NUMBER_DIGITS }
        ensures { Added self.old NUMBER_DIGITS (decimal n) self.new }
    {
        self.at = text::print(u64::from(n), self.out, self.at);
    }

    // Adds a byte string.
    pub fn put(&mut self, bytes: &[u8])
        requires { HasRoom self.old (length bytes.now) }
        ensures { Added self.old (length bytes.now) bytes.now self.new }
    {
        let end = self.at + bytes.len();
        self.out[self.at..end].copy_from_slice(bytes);
        self.at = end;
    }
}

// The field of a setting.
fn field_of(setting: &[u8]) -> &[u8]
    ensures { result.now ≡ setting_field setting.now }
{
    if setting.is_empty() { b"-" } else { setting }
}

// Text in a lent buffer, from its front on: each `put` adds its bytes behind those that were put before, and requires that the buffer has room
// for them. Lines are methods and no `Display`: `write!` promises its text only where it answers `Ok`, and nothing says when it does.
#![tactic(auto)]

ghost use Rattle.std.specs.Prelude.{◌-◌, ◌<◌, ◌≡◌, [], ◌∷◌, ◌++◌, map, length};
ghost use Rattle.words.specs.Refusals.{refusal_number};
ghost use Rattle.text.specs.Lines.{decimal, line_rest, head_line, row_line, sum_line, verdict_line, refused_line};
ghost use Rattle.text.specs.Lines.{field_line, malformed_line, too_many_line, spaces, column};
ghost use Rattle.text.specs.Put.{HasRoom, Adds};

use itoa::Buffer;
use words::Refusal;
use xfield::XFieldElement;

// The numbers of a text's first line.
#[derive(Clone, Copy)]
pub struct Head {
    pub entries: u64,
    pub height: u64,
    pub padded: u64,
}

// The first `len` bytes of the buffer are the text so far.
#[derive(Drop)]
pub struct Text<'a> {
    out: &'a mut [u8],
    len: usize,
}

impl<'a> Text<'a> {
    // No text yet, in this buffer.
    pub fn new(out: &'a mut [u8]) -> Text<'a>
        ensures same_reference { result.out.ghost_name ≡ out.entry.ghost_name }
        ensures untouched { result.out.now ≡ out.old }
        ensures empty { result.len ≡ 0 }
    {
        Text { out, len: 0 }
    }

    // The length of the text so far.
    pub fn len(&self) -> usize
        ensures { result ≡ self.now.len }
    {
        self.len
    }

    // Puts these bytes.
    pub fn put_bytes(&mut self, part: &[u8])
        requires { HasRoom self.old (length part.now) }
        ensures { Adds self.old part.now self.new }
    {
        let end = self.len + part.len();
        self.out[self.len..end].copy_from_slice(part);
        self.len = end;
    }

    // Puts this text.
    pub fn put_str(&mut self, part: &str)
        requires { HasRoom self.old (length part.now) }
        ensures { Adds self.old part.now self.new }
    {
        self.put_bytes(part.as_bytes());
    }

    // Puts a number in decimal.
    fn put_number(&mut self, n: u64)
        requires { HasRoom self.old (length (decimal n)) }
        ensures { Adds self.old (decimal n) self.new }
    {
        self.put_str(Buffer::new().format(n));
    }

    // Puts this text, then a number in decimal.
    fn put_labelled(&mut self, label: &str, n: u64)
        requires { HasRoom self.old (length (label.now ++ decimal n)) }
        ensures { Adds self.old (label.now ++ decimal n) self.new }
    {
        self.put_str(label);
        self.put_number(n);
    }

    // Puts what follows a field of a line: each of these numbers after a space, then the newline.
    fn put_rest(&mut self, words: &[u64])
        requires { HasRoom self.old (length (line_rest (map decimal words.now))) }
        ensures { Adds self.old (line_rest (map decimal words.now)) self.new }
    {
        for word in words {
            self.put_labelled(" ", *word);
        }
        self.put_str("\n");
    }

    // Puts the line of a row's words.
    pub fn put_row(&mut self, words: &[u64])
        requires not_empty { 0 < length words.now }
        requires room { HasRoom self.old (length (row_line words.now)) }
        ensures { Adds self.old (row_line words.now) self.new }
    {
        self.put_number(words[0]);
        self.put_rest(&words[1..]);
    }

    // Puts the first line: the number of entries, the height and the padded height.
    pub fn put_head(&mut self, head: Head)
        requires { HasRoom self.old (length (head_line head.entries head.height head.padded)) }
        ensures { Adds self.old (head_line head.entries head.height head.padded) self.new }
    {
        self.put_labelled("entries ", head.entries);
        self.put_labelled(" rows ", head.height);
        self.put_str(" padded");
        self.put_rest(&[head.padded]);
    }

    // Puts the line of the last sum's three words.
    pub fn put_sum(&mut self, sum: XFieldElement)
        requires { HasRoom self.old (length (sum_line (sum.0.0 ∷ sum.1.0 ∷ sum.2.0 ∷ []))) }
        ensures { Adds self.old (sum_line (sum.0.0 ∷ sum.1.0 ∷ sum.2.0 ∷ [])) self.new }
    {
        self.put_str("sum");
        self.put_rest(&sum.words());
    }

    // Puts the line of a check that found every constraint zero.
    pub fn put_zero(&mut self)
        requires { HasRoom self.old (length (verdict_line [])) }
        ensures { Adds self.old (verdict_line []) self.new }
    {
        self.put_str("zero\n");
    }

    // Puts the line of a check that found a constraint that is not zero.
    // Any number may be given as the group: an enum of the four groups would promise nothing of any other, and no promise is to be smaller.
    pub fn put_nonzero(&mut self, group: u64, row: u64, index: u64, value: XFieldElement)
        requires { HasRoom self.old (length (verdict_line (group ∷ row ∷ index ∷ value.0.0 ∷ value.1.0 ∷ value.2.0 ∷ []))) }
        ensures { Adds self.old (verdict_line (group ∷ row ∷ index ∷ value.0.0 ∷ value.1.0 ∷ value.2.0 ∷ [])) self.new }
    {
        let [a, b, c] = value.words();
        self.put_str("nonzero");
        self.put_rest(&[group, row, index, a, b, c]);
    }

    // Puts the line of a refusal with this number.
    // Any number may be given, as the group above: `put_refused`, which takes a `Refusal`, promises nothing of any other.
    pub fn put_refused_number(&mut self, number: u64)
        requires { HasRoom self.old (length (refused_line number)) }
        ensures { Adds self.old (refused_line number) self.new }
    {
        self.put_str("refused");
        self.put_rest(&[number]);
    }

    // Puts the line of a refusal.
    pub fn put_refused(&mut self, reason: Refusal)
        requires { HasRoom self.old (length (refused_line (refusal_number reason))) }
        ensures { Adds self.old (refused_line (refusal_number reason)) self.new }
    {
        self.put_refused_number(u64::from(reason));
    }

    // Puts the line of one field alone.
    pub fn put_field(&mut self, field: &[u8])
        requires { HasRoom self.old (length (field_line field.now)) }
        ensures { Adds self.old (field_line field.now) self.new }
    {
        self.put_bytes(field);
        self.put_rest(&[]);
    }

    // Puts the line of a text that cannot be read: the number of the line with its first fault.
    pub fn put_malformed(&mut self, number: u64)
        requires { HasRoom self.old (length (malformed_line number)) }
        ensures { Adds self.old (malformed_line number) self.new }
    {
        self.put_str("malformed line");
        self.put_rest(&[number]);
    }

    // Puts the line of a number of rows above the most that is taken.
    pub fn put_too_many(&mut self, rows: u64, most: u64)
        requires { HasRoom self.old (length (too_many_line rows most)) }
        ensures { Adds self.old (too_many_line rows most) self.new }
    {
        self.put_labelled("too many rows: ", rows);
        self.put_str(", at most");
        self.put_rest(&[most]);
    }

    // Puts so many spaces.
    fn put_spaces(&mut self, count: usize)
        requires { HasRoom self.old count }
        ensures { Adds self.old (spaces count) self.new }
    {
        let end = self.len + count;
        self.out[self.len..end].fill(b' ');
        self.len = end;
    }

    // Puts a number at the right end of a column of this width.
    pub fn put_column(&mut self, width: usize, n: u64)
        requires { HasRoom self.old (length (column width n)) }
        ensures { Adds self.old (column width n) self.new }
    {
        let mut buffer = Buffer::new();
        let digits = buffer.format(n);
        self.put_spaces(width.saturating_sub(digits.len()));
        self.put_str(digits);
    }
}

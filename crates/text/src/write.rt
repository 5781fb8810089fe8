// Pieces written one after another into memory that a caller lends.
ghost use Rattle.std.specs.Prelude.{◌≡◌, ◌+◌, ◌*◌, ◌≤◌, true, length, is_some, decimal};
ghost use Rattle.text.specs.Lines.{line, word, words};
ghost use Rattle.text.specs.Written.{HasRoom, Puts, Wrote, left_if_fits, length_if_fits};

// Where the next piece goes in a lent slice. A method here asks for room. Digits are put by hand: `write!` would be no
// plainer, as each piece would have to be shown to fit.
#[derive(Drop)]
pub struct Writer<'a, T> {
    pub buffer: &'a mut [T],
    pub at: usize,
}

impl<T: Copy> Writer<'_, T> {
    pub fn put(&mut self, items: &[T])
        requires { HasRoom self.old items.now }
        ensures { Puts self.old self.new items.now }
    {
        let end = self.at + items.len();
        self.buffer[self.at..end].copy_from_slice(items);
        self.at = end;
    }
}

impl Writer<'_, u8> {
    // The number in decimal digits, with no leading zero.
    pub fn put_decimal(&mut self, n: u64)
        requires { HasRoom self.old (decimal n) }
        ensures { Puts self.old self.new (decimal n) }
    {
        if n >= 10 {
            self.put_decimal(n / 10);
            self.put(&[b'0' + (n % 10) as u8]);
        } else {
            self.put(&[b'0' + n as u8]);
        }
    }

    // A space and the number.
    pub fn put_word(&mut self, n: u64)
        requires { HasRoom self.old (word n) }
        ensures { Puts self.old self.new (word n) }
    {
        self.put(b" ");
        self.put_decimal(n);
    }

    // A space and the number, for each of the numbers.
    pub fn put_words(&mut self, numbers: &[u64])
        requires { HasRoom self.old (words numbers.now) }
        ensures { Puts self.old self.new (words numbers.now) }
    {
        for n in numbers {
            self.put_word(*n);
        }
    }

    // A name, the numbers after it, and the end of the line.
    pub fn put_line(&mut self, name: &[u8], numbers: &[u64])
        requires { HasRoom self.old (line name.now numbers.now) }
        ensures { Puts self.old self.new (line name.now numbers.now) }
    {
        self.put(name);
        self.put_words(numbers);
        self.put(b"\n");
    }
}

// How many digits the number has.
pub fn decimal_length(n: u64) -> usize
    ensures value { result ≡ length (decimal n) }
    ensures bound { result ≤ 20 }
{
    if n >= 10 {
        decimal_length(n / 10) + 1
    } else {
        1
    }
}

pub fn words_length(numbers: &[u64]) -> usize
    requires { length numbers.now ≤ 1000000 }
    ensures value { result ≡ length (words numbers.now) }
    ensures bound { result ≤ 21 * length numbers.now }
{
    numbers.iter().map(|n| decimal_length(*n) + 1).sum()
}

// One line alone, where the buffer has room for it; else nothing is written.
pub fn put_only_line(buffer: &mut [u8], name: &[u8], numbers: &[u64]) -> Option<usize>
    requires named { length name.now ≤ 1000000 }
    requires numbered { length numbers.now ≤ 1000000 }
    ensures answer { result ≡ length_if_fits (line name.now numbers.now) buffer.old }
    ensures after { buffer.new ≡ left_if_fits (line name.now numbers.now) buffer.old }
    ensures fits { length name.now + 21 * length numbers.now + 1 ≤ length buffer.old → is_some result ≡ true }
{
    if name.len() + words_length(numbers) + 1 > buffer.len() {
        return None;
    }
    let mut out = Writer { buffer, at: 0 };
    out.put_line(name, numbers);
    Some(out.at)
}

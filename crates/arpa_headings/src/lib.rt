// The fixed lines of an ARPA text, and the lines of its data section, which announce counts. The definitions that the contracts cite are in specs/.
#![tactic(auto)]

ghost use Rattle.std.specs.Prelude.{◌≡◌, ◌≤◌};
ghost use Rattle.backoff.specs.Limits.{order_limit};
ghost use Rattle.backoff.specs.Words.{same_words};
ghost use Rattle.arpa_headings.specs.Headings.{data_line, section_line, end_line, is_count_head, without_space, count_in, read_count};

// Whether the line begins the data section.
pub fn is_data_line(line: &[u8]) -> bool
    ensures { result ≡ same_words line.now data_line }
{
    text_parts::same_bytes(line, b"\\data\\")
}

// Whether the line begins the section of length m.
pub fn is_section_line(line: &[u8], m: usize) -> bool
    requires { (1 ≤ m) × (m ≤ order_limit) }
    ensures { result ≡ same_words line.now (section_line m) }
{
    match m {
        1 => text_parts::same_bytes(line, b"\\1-grams:"),
        2 => text_parts::same_bytes(line, b"\\2-grams:"),
        3 => text_parts::same_bytes(line, b"\\3-grams:"),
        4 => text_parts::same_bytes(line, b"\\4-grams:"),
        _ => text_parts::same_bytes(line, b"\\5-grams:"),
    }
}

// Whether the line is the end line.
pub fn is_end_line(line: &[u8]) -> bool
    ensures { result ≡ same_words line.now end_line }
{
    text_parts::same_bytes(line, b"\\end\\")
}

// Whether the text is `ngram m`, perhaps with a space behind it.
fn is_count_head(text: &[u8], m: usize) -> bool
    requires { m ≤ order_limit }
    ensures { result ≡ is_count_head m text.now }
{
    let digit = b'0' + m as u8;
    let Some(rest) = text.strip_prefix(b"ngram ") else {
        return false;
    };
    rest == [digit].as_slice() || rest == [digit, b' '].as_slice()
}

// The count that stands behind `=`.
fn read_digits(text: &[u8]) -> Option<u32>
    ensures { result ≡ count_in text.now }
{
    if decimal::digits_up_to(text, 9) {
        Some(decimal::value(text) as u32)
    } else {
        None
    }
}

// The text behind one space, which may be absent.
fn without_space(text: &[u8]) -> &[u8]
    ensures { result.now ≡ without_space text.now }
{
    match text {
        [b' ', rest @ ..] => rest,
        _ => text,
    }
}

// The count that a line announces for the length m.
pub fn read_count(line: &[u8], m: usize) -> Option<u32>
    requires { m ≤ order_limit }
    ensures { result ≡ read_count m line.now }
{
    let equals = text_parts::find_byte(line, b'=')?;
    if !is_count_head(&line[..equals], m) {
        return None;
    }
    read_digits(without_space(&line[equals + 1..]))
}

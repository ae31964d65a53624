// What a byte of a header is.
ghost use Rattle.std.specs.Prelude.{◌≡◌};
ghost use Rattle.graymap.specs.Grammar.{is_space, ends_line, is_digit};

// Space, TAB, LF, CR: std's word for ASCII takes a form feed too.
pub fn is_space(b: u8) -> bool
    ensures { result ≡ is_space b }
{
    (b == b' ') | (b == b'\t') | (b == b'\n') | (b == b'\r')
}

pub fn ends_line(b: u8) -> bool
    ensures { result ≡ ends_line b }
{
    (b == b'\n') | (b == b'\r')
}

pub fn is_digit(b: u8) -> bool
    ensures { result ≡ is_digit b }
{
    b.is_ascii_digit()
}

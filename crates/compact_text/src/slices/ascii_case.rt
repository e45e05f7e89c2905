//! Upper and lower case of ASCII.
ghost use Rattle.std.specs.Prelude.{◌≡◌, map};
ghost use Rattle.compact_text.specs.Case.{in_case};

/// Upper or lower case.
#[derive(Clone, Copy)]
pub enum Case {
    Lower,
    Upper,
}

/// Converts the ASCII characters to upper or lower case.
#[inline]
pub fn convert_case(slice: &mut [u8], case: Case)
    ensures { slice.new ≡ map (in_case case) slice.old }
{
    match case {
        Case::Lower => slice.make_ascii_lowercase(),
        Case::Upper => slice.make_ascii_uppercase(),
    }
}

//! Splitting at newlines.
ghost use Rattle.std.specs.Prelude.{◌≡◌, ◌<◌, ◌∷◌, [], length, IfSome};
ghost use Rattle.std.specs.Option.{option_map_or};
ghost use Rattle.cli_io.specs.Newlines.{input_lines};

/// The first line, and what follows its newline if it has one. Allocates nothing.
pub fn split_line(input: &[u8]) -> (&[u8], Option<&[u8]>)
    ensures lines { input_lines input.now ≡ result.0.now ∷ option_map_or (λ rest. input_lines rest.now) result.1 [] }
    ensures shorter { IfSome result.1 (λ rest. length rest.now < length input.now) }
{
    for (at, byte) in input.iter().enumerate() {
        if *byte == b'\n' {
            return (&input[..at], Some(&input[at + 1..]));
        }
    }
    (input, None)
}

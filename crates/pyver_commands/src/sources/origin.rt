//! Where lines come from.
ghost use Rattle.std.specs.Prelude.{◌≡◌};
ghost use Rattle.pyver_commands.specs.Sources.{is_input};

// The source of lines.
#[derive(Clone, Copy)]
pub(crate) struct Origin<'a> {
    // Whether no other source comes before it.
    pub(crate) is_first: bool,
    // The name of a file, or `-` for standard input.
    pub(crate) name: &'a str,
}

/// Whether the name denotes standard input.
pub fn is_input(name: &str) -> bool
    ensures { result ≡ is_input name.now }
{
    name == "-"
}

// The names of the commands.
ghost use Rattle.std.specs.Prelude.{◌≡◌};
ghost use Rattle.ember_words.specs.WordsCommand.{verb_of};

/// A command of the program, without its values.
#[derive(Clone, Copy)]
pub enum Verb {
    Faces,
    At,
    Boole,
    Demo,
    Voxels,
    Pairs,
    Slice,
}

impl Verb {
    /// The command of this name, by its bytes.
    pub fn named(name: &str) -> Option<Verb>
        ensures { result ≡ verb_of name.now }
    {
        match name {
            "faces" => Some(Verb::Faces),
            "at" => Some(Verb::At),
            "bool" => Some(Verb::Boole),
            "demo" => Some(Verb::Demo),
            "voxels" => Some(Verb::Voxels),
            "pairs" => Some(Verb::Pairs),
            "slice" => Some(Verb::Slice),
            _ => None,
        }
    }
}

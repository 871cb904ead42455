// The names of commands and options.
ghost use Rattle.std.specs.Prelude.{◌≡◌, option_map};
ghost use Rattle.mesh_words.specs.Names.{verb_of, operator_of, setting_of, rank};
ghost use Rattle.mesh_words.specs.Spelling.{option_of};

/// A command without its values.
#[derive(Clone, Copy)]
pub enum Verb {
    Compute(Operation),
    Snap,
    Export,
    Info,
    View,
    Help,
    Version,
}

/// How the expression of a Boolean is given.
#[derive(Clone, Copy)]
pub enum Operation {
    Union,
    Difference,
    Intersection,
    /// By `--expr`.
    Expression,
}

/// An option that has a value.
#[derive(Clone, Copy, Debug, PartialEq, Eq)]
pub enum Setting {
    Expression,
    Output,
    /// The format of what goes to standard output.
    Format,
    Step,
    Workers,
    Digits,
    /// The folder of `snap`.
    Folder,
    /// The grid of a document.
    Scene,
    /// A page that shows the result.
    Page,
    /// The folder that keeps what a Boolean makes on the way.
    Keep,
    /// The number of a file, and the steps by which it is placed.
    Place,
    /// The number of a file that is turned inside out.
    Turn,
}

impl Verb {
    /// The command of this name, by its bytes.
    pub fn named(name: &str) -> Option<Verb>
        ensures { result ≡ verb_of name.now }
    {
        match name {
            "union" => Some(Verb::Compute(Operation::Union)),
            "difference" => Some(Verb::Compute(Operation::Difference)),
            "intersection" => Some(Verb::Compute(Operation::Intersection)),
            "bool" => Some(Verb::Compute(Operation::Expression)),
            "snap" => Some(Verb::Snap),
            "export" => Some(Verb::Export),
            "info" => Some(Verb::Info),
            "view" => Some(Verb::View),
            "help" => Some(Verb::Help),
            "--help" => Some(Verb::Help),
            "-h" => Some(Verb::Help),
            "--version" => Some(Verb::Version),
            _ => None,
        }
    }
}

impl Operation {
    /// The operator between the meshes of the expression. None if the expression is given as it is.
    pub fn operator(self) -> Option<&'static str>
        ensures { option_map (λ text. text.now) result ≡ operator_of self }
    {
        match self {
            Operation::Union => Some("|"),
            Operation::Difference => Some("&!"),
            Operation::Intersection => Some("&"),
            Operation::Expression => None,
        }
    }
}

impl Setting {
    /// The option of this name, by its bytes.
    pub fn named(name: &str) -> Option<Setting>
        ensures { result ≡ setting_of name.now }
    {
        match name {
            "--expr" => Some(Setting::Expression),
            "-o" => Some(Setting::Output),
            "--format" => Some(Setting::Format),
            "--step" => Some(Setting::Step),
            "--workers" => Some(Setting::Workers),
            "--digits" => Some(Setting::Digits),
            "-d" => Some(Setting::Folder),
            "--scene" => Some(Setting::Scene),
            "--view" => Some(Setting::Page),
            "--keep" => Some(Setting::Keep),
            "--place" => Some(Setting::Place),
            "--turn" => Some(Setting::Turn),
            _ => None,
        }
    }

    /// The name of the option.
    pub fn name(self) -> &'static str
        ensures { result.now ≡ option_of self }
    {
        match self {
            Setting::Expression => "--expr",
            Setting::Output => "-o",
            Setting::Format => "--format",
            Setting::Step => "--step",
            Setting::Workers => "--workers",
            Setting::Digits => "--digits",
            Setting::Folder => "-d",
            Setting::Scene => "--scene",
            Setting::Page => "--view",
            Setting::Keep => "--keep",
            Setting::Place => "--place",
            Setting::Turn => "--turn",
        }
    }

    /// A number of its own for each option.
    pub fn rank(self) -> u8
        ensures { result ≡ rank self }
    {
        match self {
            Setting::Expression => 0,
            Setting::Output => 1,
            Setting::Step => 2,
            Setting::Workers => 3,
            Setting::Digits => 4,
            Setting::Folder => 5,
            Setting::Scene => 6,
            Setting::Page => 7,
            Setting::Keep => 8,
            Setting::Format => 9,
            Setting::Place => 10,
            Setting::Turn => 11,
        }
    }
}

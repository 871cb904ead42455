// Which options a command takes.
ghost use Rattle.std.specs.Prelude.{◌≡◌};
ghost use Rattle.mesh_words.specs.Allowed.{is_among, setting_beside, first_beside};

use crate::arguments::Argument;
use crate::names::Setting;

// The options with values that a Boolean takes.
pub const BOOLEAN_SETTINGS: [Setting; 10] = [
    Setting::Expression,
    Setting::Output,
    Setting::Format,
    Setting::Step,
    Setting::Workers,
    Setting::Digits,
    Setting::Page,
    Setting::Keep,
    Setting::Place,
    Setting::Turn,
];

// Those of `snap`.
pub const SNAP_SETTINGS: [Setting; 2] = [Setting::Folder, Setting::Step];

// Those of `export`.
pub const EXPORT_SETTINGS: [Setting; 5] = [
    Setting::Scene,
    Setting::Output,
    Setting::Format,
    Setting::Digits,
    Setting::Page,
];

// Those of `view`.
pub const VIEW_SETTINGS: [Setting; 1] = [Setting::Output];

// Whether the option is one of these.
fn is_among(settings: &[Setting], setting: Setting) -> bool
    ensures { result ≡ is_among settings.now setting }
{
    settings.iter().any(|other| other.rank() == setting.rank())
}

// The option of the argument, if it is none of these.
fn setting_beside(settings: &[Setting], argument: &Argument) -> Option<Setting>
    ensures { result ≡ setting_beside settings.now argument.now }
{
    match argument {
        Argument::Value(setting, _) => {
            if is_among(settings, *setting) {
                None
            } else {
                Some(*setting)
            }
        }
        _ => None,
    }
}

/// The first option among the arguments that `settings` doesn't list, or None. Only options with
/// values count.
pub fn first_beside(settings: &[Setting], arguments: &[Argument]) -> Option<Setting>
    ensures { result ≡ first_beside settings.now arguments.now }
{
    for argument in arguments {
        if let Some(setting) = setting_beside(settings, argument) {
            return Some(setting);
        }
    }
    None
}

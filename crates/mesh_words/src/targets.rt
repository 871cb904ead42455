// Why what a command writes is refused.
ghost use Rattle.std.specs.Prelude.{◌≡◌, IfOk, false};
ghost use Rattle.mesh_words.specs.declared.names.Setting.TheVariants as setting;
ghost use Rattle.mesh_words.specs.Arguments.{value_in};
ghost use Rattle.mesh_words.specs.Targets.{has_second, first_twice, option_fault, first_same, first_over, over_output, is_page_name, page_fault, page_over_output, shown_fault, scene_fault, keep_fault, input_fault, boolean_fault, snap_fault, export_fault, view_fault};

use crate::allowed::{
    BOOLEAN_SETTINGS, EXPORT_SETTINGS, SNAP_SETTINGS, VIEW_SETTINGS, first_beside,
};
use crate::arguments::{Argument, inputs_in, value_in};
use crate::faults::Refusal;
use crate::folders::{kept_names, scene_names};
use crate::names::Setting;
use crate::paths::is_same_path;
use crate::streams::reads_twice;
use crate::values::ends_in;
use ember_words::Text;
use std::alloc::{AllocError, Global};

// The options that name what is written.
const TARGET_SETTINGS: [Setting; 4] = [
    Setting::Output,
    Setting::Folder,
    Setting::Page,
    Setting::Keep,
];

// Whether the option has two values.
fn has_second(arguments: &[Argument], setting: Setting) -> bool
    ensures { result ≡ has_second setting false arguments.now }
{
    let mut before = false;
    for argument in arguments {
        if argument.value_for(setting).is_some() {
            if before {
                return true;
            }
            before = true;
        }
    }
    false
}

// The first of the options that has two values.
fn first_twice(settings: &[Setting], arguments: &[Argument]) -> Option<Setting>
    ensures { result ≡ first_twice settings.now arguments.now }
{
    for setting in settings {
        if has_second(arguments, *setting) {
            return Some(*setting);
        }
    }
    None
}

// Why the options are refused before their values are read, if they are.
fn option_fault(settings: &[Setting], arguments: &[Argument]) -> Option<Refusal>
    ensures { result ≡ option_fault settings.now arguments.now }
{
    if let Some(setting) = first_beside(settings, arguments) {
        return Some(Refusal::NotFor(setting));
    }
    match first_twice(&TARGET_SETTINGS, arguments) {
        Some(setting) => Some(Refusal::Twice(setting)),
        None => None,
    }
}

// The number, from 0, of the first input of the same path.
fn first_same(target: &str, inputs: &[Text]) -> Option<usize>
    ensures { result ≡ first_same target.now 0 inputs.now }
{
    for (number, input) in inputs.iter().enumerate() {
        if is_same_path(target, input.as_str()) {
            return Some(number);
        }
    }
    None
}

// The same of the first of several paths that has such an input.
fn first_over(targets: &[Text], inputs: &[Text]) -> Option<usize>
    ensures { result ≡ first_over targets.now inputs.now }
{
    for target in targets {
        if let Some(number) = first_same(target.as_str(), inputs) {
            return Some(number);
        }
    }
    None
}

// Whether the name ends as that of a page.
fn is_page_name(name: &str) -> bool
    ensures { result ≡ is_page_name name.now }
{
    ends_in(b".html", name.as_bytes()) || ends_in(b".htm", name.as_bytes())
}

// Why the page that the option names is refused, if there is one and it is.
fn page_fault(
    alloc: Global,
    setting: Setting,
    arguments: &[Argument],
) -> Result<Option<Refusal>, AllocError>
    ensures { IfOk result (λ fault. fault ≡ page_fault setting arguments.now) }
{
    let Some(name) = value_in(arguments, setting) else {
        return Ok(None);
    };
    if !is_page_name(name.as_str()) {
        return Ok(Some(Refusal::PageEnding(setting)));
    }
    let inputs = inputs_in(alloc, arguments)?;
    match first_same(name.as_str(), inputs.items()) {
        Some(number) => Ok(Some(Refusal::OverInput(setting, number))),
        None => Ok(None),
    }
}

// Why the page beside the output is refused, if it is the output.
fn page_over_output(arguments: &[Argument]) -> Option<Refusal>
    ensures { result ≡ page_over_output (value_in setting.Page arguments.now) (value_in setting.Output arguments.now) }
{
    let page = value_in(arguments, Setting::Page)?;
    let output = value_in(arguments, Setting::Output)?;
    if is_same_path(output.as_str(), page.as_str()) {
        Some(Refusal::OverOutput(Setting::Page))
    } else {
        None
    }
}

// Why the page that shows what is written to the output is refused, if there is one and it is.
fn shown_fault(alloc: Global, arguments: &[Argument]) -> Result<Option<Refusal>, AllocError>
    ensures { IfOk result (λ fault. fault ≡ shown_fault arguments.now) }
{
    match page_fault(alloc, Setting::Page, arguments)? {
        Some(why) => Ok(Some(why)),
        None => Ok(page_over_output(arguments)),
    }
}

// Why files of these names, which the option writes, are refused, if the output is one of them.
fn over_output(option: Setting, names: &[Text], arguments: &[Argument]) -> Option<Refusal>
    ensures { result ≡ over_output option names.now (value_in setting.Output arguments.now) }
{
    let output = value_in(arguments, Setting::Output)?;
    match first_same(output.as_str(), names) {
        Some(_) => Some(Refusal::OverOutput(option)),
        None => None,
    }
}

// Why the folder of a Boolean is refused, if there is one and it is.
fn keep_fault(alloc: Global, arguments: &[Argument]) -> Result<Option<Refusal>, AllocError>
    ensures { IfOk result (λ fault. fault ≡ keep_fault arguments.now) }
{
    let Some(folder) = value_in(arguments, Setting::Keep) else {
        return Ok(None);
    };
    let inputs = inputs_in(alloc, arguments)?;
    let names = kept_names(alloc, folder.as_str(), inputs.items().len())?;
    match first_over(&names, inputs.items()) {
        Some(number) => Ok(Some(Refusal::OverInput(Setting::Keep, number))),
        None => Ok(over_output(Setting::Keep, &names, arguments)),
    }
}

// The same of `snap`.
fn scene_fault(alloc: Global, arguments: &[Argument]) -> Result<Option<Refusal>, AllocError>
    ensures { IfOk result (λ fault. fault ≡ scene_fault arguments.now) }
{
    let Some(folder) = value_in(arguments, Setting::Folder) else {
        return Ok(None);
    };
    let inputs = inputs_in(alloc, arguments)?;
    let names = scene_names(alloc, folder.as_str(), inputs.items().len())?;
    match first_over(&names, inputs.items()) {
        Some(number) => Ok(Some(Refusal::OverInput(Setting::Folder, number))),
        None => Ok(None),
    }
}

/// Why the options of a Boolean or what it would write are refused, if they are: an option that it
/// doesn't take, a second name of what is written, the page, the folder.
pub fn boolean_fault(alloc: Global, arguments: &[Argument]) -> Result<Option<Refusal>, AllocError>
    ensures { IfOk result (λ fault. fault ≡ boolean_fault arguments.now) }
{
    if let Some(why) = option_fault(&BOOLEAN_SETTINGS, arguments) {
        return Ok(Some(why));
    }
    if let Some(why) = shown_fault(alloc, arguments)? {
        return Ok(Some(why));
    }
    keep_fault(alloc, arguments)
}

/// The same of `snap`, which has no page.
pub fn snap_fault(alloc: Global, arguments: &[Argument]) -> Result<Option<Refusal>, AllocError>
    ensures { IfOk result (λ fault. fault ≡ snap_fault arguments.now) }
{
    if let Some(why) = option_fault(&SNAP_SETTINGS, arguments) {
        return Ok(Some(why));
    }
    scene_fault(alloc, arguments)
}

// Whether the document and the file of its grid are both read from standard input.
fn input_fault(alloc: Global, arguments: &[Argument]) -> Result<Option<Refusal>, AllocError>
    ensures { IfOk result (λ fault. fault ≡ input_fault arguments.now) }
{
    let inputs = inputs_in(alloc, arguments)?;
    if reads_twice(inputs.items()) {
        return Ok(Some(Refusal::SecondInput));
    }
    Ok(None)
}

/// The same of `export`, which has no folder.
pub fn export_fault(alloc: Global, arguments: &[Argument]) -> Result<Option<Refusal>, AllocError>
    ensures { IfOk result (λ fault. fault ≡ export_fault arguments.now) }
{
    if let Some(why) = option_fault(&EXPORT_SETTINGS, arguments) {
        return Ok(Some(why));
    }
    if let Some(why) = input_fault(alloc, arguments)? {
        return Ok(Some(why));
    }
    shown_fault(alloc, arguments)
}

/// The same of `view`, which has no folder.
pub fn view_fault(alloc: Global, arguments: &[Argument]) -> Result<Option<Refusal>, AllocError>
    ensures { IfOk result (λ fault. fault ≡ view_fault arguments.now) }
{
    if let Some(why) = option_fault(&VIEW_SETTINGS, arguments) {
        return Ok(Some(why));
    }
    page_fault(alloc, Setting::Output, arguments)
}

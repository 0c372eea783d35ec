//! The inputs, each read to its end and interpreted.
ghost use Rattle.std.specs.Prelude.{◌≡◌, ◌↔◌, ◌≤◌, ◌^◌, ◌++◌, true, false, [], length, map, IfOk, IfErr, IfSome, IsErrOf, Ok};
ghost use Rattle.std.specs.List.{flat_map};
ghost use Rattle.std.specs.Vec.{vec_items};
ghost use Rattle.densfill_io.specs.Taps.{has_failed, under};
ghost use Rattle.fill_region.specs.Runs.{holds};
ghost use Rattle.fill_region.specs.Squares.{covered};
ghost use Rattle.fill_text.specs.Script.{change_of};
ghost use Rattle.fill_text.specs.ValuesOfChips.{chip_values};
ghost use Rattle.fill_text.specs.ValuesOfRules.{values_of};
ghost use Rattle.fill_job.specs.Basis.{layers_in};
ghost use Rattle.gds_grammar.specs.Values.{contents_of};
ghost use Rattle.densfill_engine.specs.Designs.{IsCountedNear, IsDesignNear, IsDrawnNear, IsFaultBy, IsOnAnyNear, IsRefusedNear, IsUncounted, IsUndrawn};
ghost use Rattle.densfill_engine.specs.Inputs.{chip_answer, rules_answer, script_answer, IsFaultOf};

use crate::metal::one_list;
use crate::refusal::{DesignError, InputFault};
use crate::view::View;
use densfill_io::{InputError, Tap, read_input};
use fill_base::{Layer, Rect};
use fill_region::{Region, region_of_rects};
use fill_text::{
    ChipRules, Edit, RuleError, Rules, ScriptError, read_chip_rules, read_rules, read_script,
};
use gds_flatten::laws::{layers_suffice, layers_suffice_within};
use gds_flatten::{FlattenError, flatten_parts, flatten_within};
use gds_grammar::{Library, read_layers};
use std::alloc::{AllocError, Global};
use std::io::Read;
use std::thread::Threads;

/// The three inputs of a fill, each behind a tap, in the order in which they are read.
#[derive(Drop)]
pub struct Inputs<R, D, S> {
    /// The rule file.
    pub rules: Tap<R>,
    /// The design, a GDSII Stream library.
    pub design: Tap<D>,
    /// The script of late changes.
    pub script: Tap<S>,
}

/// How many bytes an input may have.
pub(crate) const MOST_BYTES: usize = 2_147_483_648;

/// The rules that the reader behind the tap gives.
pub fn take_rules<R: Read>(alloc: Global, tap: &mut Tap<R>) -> Result<Rules, InputFault<RuleError>>
    requires { has_failed tap.old ≡ false }
    ensures device { IsErrOf result (InputFault.Unread InputError.Device) ↔ (has_failed tap.new ≡ true) }
    ensures rules { IfOk result (λ r. IfSome (R.remaining (under tap.old)) (λ text. rules_answer text ≡ Ok (values_of r))) }
    ensures refused { IfErr result (λ f. IfSome (R.remaining (under tap.old)) (λ text. IsFaultOf RuleError.Memory (rules_answer text) f)) }
{
    let text = read_input(alloc, tap, MOST_BYTES)?;
    let rules = read_rules(alloc, &text)?;
    Ok(rules)
}

/// The rules of a chip of any size that the reader behind the tap gives.
pub fn take_chip_rules<R: Read>(
    alloc: Global,
    tap: &mut Tap<R>,
) -> Result<ChipRules, InputFault<RuleError>>
    requires { has_failed tap.old ≡ false }
    ensures device { IsErrOf result (InputFault.Unread InputError.Device) ↔ (has_failed tap.new ≡ true) }
    ensures rules { IfOk result (λ c. IfSome (R.remaining (under tap.old)) (λ text. chip_answer text ≡ Ok (chip_values c))) }
    ensures refused { IfErr result (λ f. IfSome (R.remaining (under tap.old)) (λ text. IsFaultOf RuleError.Memory (chip_answer text) f)) }
{
    let text = read_input(alloc, tap, MOST_BYTES)?;
    let rules = read_chip_rules(alloc, &text)?;
    Ok(rules)
}

/// The edits that the reader behind the tap gives.
pub fn take_edits<S: Read>(
    alloc: Global,
    tap: &mut Tap<S>,
) -> Result<Vec<Edit>, InputFault<ScriptError>>
    requires { has_failed tap.old ≡ false }
    ensures device { IsErrOf result (InputFault.Unread InputError.Device) ↔ (has_failed tap.new ≡ true) }
    ensures edits { IfOk result (λ v. IfSome (S.remaining (under tap.old)) (λ text. script_answer text ≡ Ok (map change_of v.items))) }
    ensures refused { IfErr result (λ f. IfSome (S.remaining (under tap.old)) (λ text. IsFaultOf ScriptError.Memory (script_answer text) f)) }
{
    let text = read_input(alloc, tap, MOST_BYTES)?;
    let edits = read_script(alloc, &text)?;
    Ok(edits)
}

/// What the library's top draws on some layers within what is looked at: lists of rectangles that cover it, and may overlap.
fn drawn_on(
    rt: &(impl Threads + Sync),
    alloc: Global,
    library: &Library<'_>,
    view: &View,
    layers: &[Layer],
) -> Result<Vec<Vec<Rect>>, FlattenError>
    ensures drawn { IfOk result (λ lists. IsDrawnNear view.now.frame (contents_of library.now).cells (values_of view.now.rules).top layers.now (covered (flat_map vec_items lists.items))) }
    ensures refused { IfErr result (λ e. IsRefusedNear view.now.frame (contents_of library.now).cells (values_of view.now.rules).top layers.now e) }
{
    let top = view.rules.top();
    match &view.frame {
        None => flatten_parts(rt, alloc, library, top, layers),
        Some(frame) => {
            let rects = flatten_within(rt, alloc, library, top, layers, frame)?;
            let lists = one_list(alloc, rects)?;
            Ok(lists)
        }
    }
}

/// The same as a region.
fn region_on(
    rt: &(impl Threads + Sync),
    alloc: Global,
    library: &Library<'_>,
    view: &View,
    layers: &[Layer],
) -> Result<Region, FlattenError>
    ensures drawn { IfOk result (λ r. IsDrawnNear view.now.frame (contents_of library.now).cells (values_of view.now.rules).top layers.now (holds r)) }
    ensures refused { IfErr result (λ e. IsRefusedNear view.now.frame (contents_of library.now).cells (values_of view.now.rules).top layers.now e) }
{
    let lists = drawn_on(rt, alloc, library, view, layers)?;
    let region = region_of(rt, alloc, &lists)?;
    Ok(region)
}

/// The region of the squares that some rectangle of some list holds.
fn region_of(
    rt: &(impl Threads + Sync),
    alloc: Global,
    lists: &[Vec<Rect>],
) -> Result<Region, AllocError>
    ensures { IfOk result (λ r. covered (flat_map vec_items lists.now) ≡ holds r) }
{
    let rects = lists.concat(alloc)?;
    region_of_rects(rt, alloc, &rects)
}

/// The same of any number of layers: no square where there are none.
fn region_on_any(
    rt: &(impl Threads + Sync),
    alloc: Global,
    library: &Library<'_>,
    view: &View,
    layers: &[Layer],
) -> Result<Region, FlattenError>
    ensures drawn { IfOk result (λ r. IsOnAnyNear view.now.frame (contents_of library.now).cells (values_of view.now.rules).top layers.now (holds r)) }
    ensures refused { IfErr result (λ e. ¬ (layers.now ≡ []) × IsRefusedNear view.now.frame (contents_of library.now).cells (values_of view.now.rules).top layers.now e) }
{
    if layers.is_empty() {
        return Ok(Region::empty(alloc));
    }
    region_on(rt, alloc, library, view, layers)
}

/// The same as lists of rectangles.
fn drawn_on_any(
    rt: &(impl Threads + Sync),
    alloc: Global,
    library: &Library<'_>,
    view: &View,
    layers: &[Layer],
) -> Result<Vec<Vec<Rect>>, FlattenError>
    ensures drawn { IfOk result (λ lists. IsOnAnyNear view.now.frame (contents_of library.now).cells (values_of view.now.rules).top layers.now (covered (flat_map vec_items lists.items))) }
    ensures refused { IfErr result (λ e. ¬ (layers.now ≡ []) × IsRefusedNear view.now.frame (contents_of library.now).cells (values_of view.now.rules).top layers.now e) }
{
    if layers.is_empty() {
        return Ok(Vec::new(alloc));
    }
    drawn_on(rt, alloc, library, view, layers)
}

/// What counts of the design of these bytes within what is looked at, metal and existing fill, as lists of rectangles that cover it. Of other
/// layers nothing is kept.
fn counted_of(
    rt: &(impl Threads + Sync),
    alloc: Global,
    bytes: &[u8],
    view: &View,
) -> Result<Vec<Vec<Rect>>, InputFault<DesignError>>
    requires { length bytes.now ≤ 2 ^ 31 }
    ensures counted { IfOk result (λ lists. IsCountedNear view.now.frame bytes.now (values_of view.now.rules) (covered (flat_map vec_items lists.items))) }
    ensures refused { IfErr result (λ f. IsFaultBy (IsUncounted view.now.frame bytes.now (values_of view.now.rules)) bytes.now f) }
    ensures taken { ¬ IsErrOf result (InputFault.Unread InputError.Device) }
{
    layers_suffice();
    layers_suffice_within();
    let metal_layers = view.rules.metal_layers(alloc)?;
    let existing_layers = view.rules.existing_layers();
    let layers = both(alloc, &metal_layers, existing_layers)?;
    let library = read_layers(alloc, bytes, &layers)?;
    let mut lists = drawn_on(rt, alloc, &library, view, &metal_layers)?;
    let mut filled = drawn_on_any(rt, alloc, &library, view, existing_layers)?;
    lists.append(&mut filled)?;
    Ok(lists)
}

/// The same of the design behind the tap.
pub fn take_counted<D: Read>(
    rt: &(impl Threads + Sync),
    alloc: Global,
    tap: &mut Tap<D>,
    view: &View,
) -> Result<Vec<Vec<Rect>>, InputFault<DesignError>>
    requires { has_failed tap.old ≡ false }
    ensures device { IsErrOf result (InputFault.Unread InputError.Device) ↔ (has_failed tap.new ≡ true) }
    ensures counted { IfOk result (λ lists. IfSome (D.remaining (under tap.old)) (λ bytes. IsCountedNear view.now.frame bytes (values_of view.now.rules) (covered (flat_map vec_items lists.items)))) }
    ensures refused { IfErr result (λ f. IfSome (D.remaining (under tap.old)) (λ bytes. IsFaultBy (IsUncounted view.now.frame bytes (values_of view.now.rules)) bytes f)) }
{
    let bytes = read_input(alloc, tap, MOST_BYTES)?;
    counted_of(rt, alloc, &bytes, view)
}

/// What a design gives to a fill.
#[derive(Drop)]
pub struct Design {
    /// The metal that its top draws on the layers of the metal.
    pub metal: Region,
    /// The squares that its top draws on the layers of existing fill; none where the rules name no such layer.
    pub fill: Region,
    /// The squares that its top draws on the layers of the keep-outs; none where the rules name no such layer.
    pub keep: Region,
    /// The data of its UNITS.
    pub units: [u8; 16],
    /// The data of its BGNLIB: the dates of its last change and access.
    pub dates: [u8; 24],
}

/// What the three inputs of a fill say.
#[derive(Drop)]
pub struct Task {
    /// What is looked at.
    pub view: View,
    /// What the design gives.
    pub design: Design,
    /// The script's edits that count there, in their order.
    pub edits: Vec<Edit>,
}

/// Two lists of layers, one behind the other.
fn both(alloc: Global, first: &[Layer], second: &[Layer]) -> Result<Vec<Layer>, AllocError>
    ensures { IfOk result (λ layers. layers.items ≡ first.now ++ second.now) }
{
    let mut layers = first.to_vec(alloc)?;
    layers.extend_from_slice(second)?;
    Ok(layers)
}

/// What the design of these bytes draws within what is looked at, on the layers of metal, of existing fill and of keep-outs, with its units
/// and dates. It is read once, and flattened in this order.
fn design_of(
    rt: &(impl Threads + Sync),
    alloc: Global,
    bytes: &[u8],
    view: &View,
) -> Result<Design, InputFault<DesignError>>
    requires { length bytes.now ≤ 2 ^ 31 }
    ensures design { IfOk result (λ d. IsDesignNear view.now.frame bytes.now (values_of view.now.rules) (layers_in d.metal d.fill d.keep) d.units d.dates) }
    ensures refused { IfErr result (λ f. IsFaultBy (IsUndrawn view.now.frame bytes.now (values_of view.now.rules)) bytes.now f) }
    ensures taken { ¬ IsErrOf result (InputFault.Unread InputError.Device) }
{
    layers_suffice();
    layers_suffice_within();
    let metal_layers = view.rules.metal_layers(alloc)?;
    let existing_layers = view.rules.existing_layers();
    let keep_layers = view.rules.keep_layers(alloc)?;
    let counted = both(alloc, &metal_layers, existing_layers)?;
    let layers = both(alloc, &counted, &keep_layers)?;
    let library = read_layers(alloc, bytes, &layers)?;
    let metal = region_on(rt, alloc, &library, view, &metal_layers)?;
    let fill = region_on_any(rt, alloc, &library, view, existing_layers)?;
    let keep = region_on_any(rt, alloc, &library, view, &keep_layers)?;
    Ok(Design {
        metal,
        fill,
        keep,
        units: library.units,
        dates: library.dates,
    })
}

/// The same of the design behind the tap.
pub fn take_design<D: Read>(
    rt: &(impl Threads + Sync),
    alloc: Global,
    tap: &mut Tap<D>,
    view: &View,
) -> Result<Design, InputFault<DesignError>>
    requires { has_failed tap.old ≡ false }
    ensures device { IsErrOf result (InputFault.Unread InputError.Device) ↔ (has_failed tap.new ≡ true) }
    ensures design { IfOk result (λ d. IfSome (D.remaining (under tap.old)) (λ bytes. IsDesignNear view.now.frame bytes (values_of view.now.rules) (layers_in d.metal d.fill d.keep) d.units d.dates)) }
    ensures refused { IfErr result (λ f. IfSome (D.remaining (under tap.old)) (λ bytes. IsFaultBy (IsUndrawn view.now.frame bytes (values_of view.now.rules)) bytes f)) }
{
    let bytes = read_input(alloc, tap, MOST_BYTES)?;
    design_of(rt, alloc, &bytes, view)
}

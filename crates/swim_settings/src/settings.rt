//! The settings of `swim run`.

ghost use Rattle.std.specs.Prelude.{◌≡◌, ◌≤◌, Some, IfOk, IfErr, option_map, string_bytes};
ghost use Rattle.toml.specs.Data.{Members};
ghost use Rattle.toml.specs.Parse.{parse_document};
ghost use Rattle.toml.specs.View.{table_view};
ghost use Rattle.swim_member.specs.Checks.{AreSound};
ghost use Rattle.swim_settings.specs.Keys.{key_text, keys};
ghost use Rattle.swim_settings.specs.Ranges.{AreInRange};
ghost use Rattle.swim_settings.specs.Says.{AreTakenBefore, AreTimes, IsFolder, IsNumber, IsOfKey, IsReason, Says, SaysMember};
ghost use Rattle.swim_settings.specs.Unknown.{AreNamed};
ghost use Rattle.swim_settings.specs.declared.key.Key.TheVariants as key;

use crate::control::ControlPlace;
use crate::key::Key;
use crate::level::Level;
use crate::place::Place;
use crate::preset::{DefaultTimes, Preset};
use crate::refusal::SettingsRefusal;
use crate::table::{read_table, refuse_unknown};
use crate::value::{
    has_key, read_bytes, read_choice, read_control_at, read_endpoint_at, read_folder, read_number,
    read_places, read_text, read_within, read_word,
};
use arrayvec::ArrayVec;
use std::alloc::Global;
use swim_member::{BLOCK_MAX, HELPERS_MAX, Settings};
use swim_wire::Endpoint;
use toml::Table;

/// The most peers that a file names.
pub const JOIN_MAX: usize = 8;

/// What `swim run` is told by its settings file.
#[derive(Drop)]
pub struct RunSettings {
    /// `file`: the path of the state file.
    pub file: String,
    /// `group`, `me`, `lambda` to `helpers`, `block` and `rules`: what the member is told.
    pub settings: Settings,
    /// `rules`: whether the file has it. The settings of a member without it have rules 1.
    pub has_rules: bool,
    /// `control`: where the control socket is.
    pub control: ControlPlace,
    /// `preset`: whose times stand for those that the file has not, if it names one.
    pub preset: Option<Preset>,
    /// `tick_ms`: milliseconds from one tick to the next, 1 to 60,000.
    pub tick_ms: u64,
    /// `limit`: entries in an era, 1 to 65,536.
    pub limit: u32,
    /// `random_key`: the key of the generator that deals and drawn members come from, if the file has one.
    pub random_key: Option<[u8; 32]>,
    /// `join`: whom to join after the opening, in this order.
    pub join: ArrayVec<Place, JOIN_MAX>,
    /// `rejoin`: ticks from one join of a drawn member to the next, at most 1,000,000; 0 for never.
    pub rejoin: u64,
    /// `introduce`: to how many others it introduces itself at most once somebody has answered it, 0 to 256.
    pub introduce: u32,
    /// `expelled`: whether the member ends once it is expelled.
    pub ends_expelled: bool,
    /// `record`: the folder into which eras that ended are recorded, if the file has one.
    pub record_folder: Option<String>,
    /// `record_eras`: how many recordings are kept there, 1 to 1,000.
    pub record_eras: u64,
    /// `log`: the least level of the lines of the log, if the file names one.
    pub log: Option<Level>,
}

/// What the member is told, with this group and endpoint, these times where the table has no others, and a block of 1 and
/// rules 1: their keys come later.
fn read_member(
    table: &Table,
    group: u64,
    me: Endpoint,
    times: DefaultTimes,
) -> Result<Settings, SettingsRefusal>
    requires taken { AreTakenBefore key.Lambda (table_view table.now) }
    requires times { AreTimes (table_view table.now) times }
    ensures sound { IfOk result AreSound }
    ensures owner { IfOk result (λ settings. (settings.group ≡ group) × (settings.me ≡ me)) }
    ensures said { IfOk result (SaysMember times (table_view table.now)) }
    ensures taken { IfOk result (λ _. AreTakenBefore key.Limit (table_view table.now)) }
    ensures refused { IfErr result (IsOfKey (table_view table.now)) }
{
    let lambda = read_within(table, Key::Lambda, times.lambda, 1, 16)?;
    let period = read_within(table, Key::Period, times.period, 2, 1000)?;
    let direct = read_within(table, Key::Direct, times.direct, 1, period - 1)?;
    let suspect = read_within(table, Key::Suspect, times.suspect, 1, 100_000)?;
    let forget = read_within(table, Key::Forget, times.forget, 1, 1_000_000)?;
    let helpers = read_within(table, Key::Helpers, times.helpers, 0, HELPERS_MAX as u64)?;
    Ok(Settings {
        group,
        me,
        lambda: lambda as u32,
        period,
        direct,
        suspect,
        forget,
        helpers: helpers as usize,
        block: 1,
        rules: 1,
    })
}

/// The member's settings with the block and the rules of the table.
fn read_block_and_rules(table: &Table, member: Settings) -> Result<Settings, SettingsRefusal>
    requires taken { AreTakenBefore key.Block (table_view table.now) }
    requires sound { AreSound member }
    ensures sound { IfOk result AreSound }
    ensures block { IfOk result (λ s. IsNumber key.Block 1 (table_view table.now) s.block) }
    ensures rules { IfOk result (λ s. IsNumber key.Rules 1 (table_view table.now) s.rules) }
    ensures rest { IfOk result
        (λ s. s ≡ record member { block = s.block; rules = s.rules }) }
    ensures taken { IfOk result (λ _. AreTakenBefore key.RandomKey (table_view table.now)) }
    ensures refused { IfErr result (IsOfKey (table_view table.now)) }
{
    let block = read_within(table, Key::Block, 1, 1, BLOCK_MAX)?;
    let rules = read_within(table, Key::Rules, 1, 1, 2)?;
    Ok(Settings {
        block,
        rules: rules as u32,
        ..member
    })
}

/// The folder of the recordings, if there is one, and how many are kept there.
fn read_recording(alloc: Global, table: &Table) -> Result<(Option<String>, u64), SettingsRefusal>
    requires { AreTakenBefore key.Record (table_view table.now) }
    ensures folder { IfOk result (λ told.
        IsFolder key.Record (table_view table.now) (option_map string_bytes told.0)) }
    ensures eras { IfOk result (λ told. IsNumber key.RecordEras 8 (table_view table.now) told.1) }
    ensures range { IfOk result (λ told. (1 ≤ told.1) × (told.1 ≤ 1000)) }
    ensures taken { IfOk result (λ _. AreTakenBefore key.Log (table_view table.now)) }
    ensures refused { IfErr result (IsOfKey (table_view table.now)) }
{
    let named = read_folder(table, Key::Record)?;
    let eras = read_within(table, Key::RecordEras, 8, 1, 1000)?;
    let folder = match named {
        Some(folder) => Some(String::from_str(alloc, folder)?),
        None => None,
    };
    Ok((folder, eras))
}

/// The settings of a table, where each key has a value that it takes.
fn read_keys(alloc: Global, table: &Table) -> Result<RunSettings, SettingsRefusal>
    ensures range { IfOk result AreInRange }
    ensures said { IfOk result (Says (table_view table.now)) }
    ensures refused { IfErr result (IsOfKey (table_view table.now)) }
{
    let file = read_text(table, Key::File)?;
    let group = read_number(table, Key::Group)?;
    let me = read_endpoint_at(table, Key::Me)?;
    let control = read_control_at(table)?;
    let preset = read_word(table, Key::Preset, &Preset::ALL)?;
    let times = DefaultTimes::of(preset);
    let tick_ms = read_within(table, Key::TickMs, times.tick_ms, 1, 60_000)?;
    let member = read_member(table, group, me, times)?;
    let limit = read_within(table, Key::Limit, 4096, 1, 65_536)?;
    let settings = read_block_and_rules(table, member)?;
    let random_key = read_bytes(table, Key::RandomKey)?;
    let join = read_places(table, Key::Join)?;
    let rejoin = read_within(table, Key::Rejoin, times.rejoin, 0, 1_000_000)?;
    let introduce = read_within(table, Key::Introduce, 64, 0, 256)?;
    let ends_expelled = read_choice(table, Key::Expelled, "stay", "end")?;
    let (record_folder, record_eras) = read_recording(alloc, table)?;
    let log = read_word(table, Key::Log, &Level::ALL)?;
    Ok(RunSettings {
        file: String::from_str(alloc, file)?,
        settings,
        has_rules: has_key(table, Key::Rules),
        control,
        preset,
        tick_ms,
        limit: limit as u32,
        random_key,
        join,
        rejoin,
        introduce: introduce as u32,
        ends_expelled,
        record_folder,
        record_eras,
        log,
    })
}

/// The settings that the bytes of a file say.
pub fn read_settings(alloc: Global, bytes: &[u8]) -> Result<RunSettings, SettingsRefusal>
    ensures range { IfOk result AreInRange }
    ensures said { IfOk result (λ run. (table : Members) × (parse_document bytes.now ≡ Some table)
        × Says table run × AreNamed key_text keys table) }
    ensures refused { IfErr result (IsReason bytes.now) }
{
    let table = read_table(alloc, bytes)?;
    let settings = read_keys(alloc, &table)?;
    refuse_unknown(alloc, &Key::ALL, &table)?;
    Ok(settings)
}

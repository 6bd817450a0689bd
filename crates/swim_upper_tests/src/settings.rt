//! Files, and what they are refused for.

use crate::same::{given, holds, same, same_at};
use std::alloc::{AllocError, Global};
use std::test::Fail;
use swim_settings::{
    ControlPlace, DefaultTimes, Key, Level, Place, RunSettings, read_settings, restart_keys,
    show_settings,
};
use swim_wire::Endpoint;
use swim_words::Word;

/// What a file has to have at least, the first lines of each file below.
const LEAST: &str = "file = 's'
group = 7
me = '10.0.0.1:7000'
control = '127.0.0.1:8000'
";

/// Lines that are taken, each after its key. Two lines of a file are parted by a semicolon.
const TAKEN: &str = "group: group = 0
group: group = 9223372036854775807
control: control = './c'
control: control = '/run/swim/control'
preset: preset = 'local'
preset: preset = 'lan'
preset: preset = 'wan'
direct: preset = 'wan'; period = 6
tick_ms: tick_ms = 1
tick_ms: tick_ms = 60000
lambda: lambda = 1
lambda: lambda = 16
period: period = 2; direct = 1
period: period = 1000; direct = 999
suspect: suspect = 1
suspect: suspect = 100000
forget: forget = 1
forget: forget = 1000000
helpers: helpers = 0
helpers: helpers = 8
limit: limit = 1
limit: limit = 65536
block: block = 1
block: block = 1024
rules: rules = 1
rules: rules = 2
rejoin: rejoin = 0
rejoin: rejoin = 1000000
introduce: introduce = 0
introduce: introduce = 256
record_eras: record_eras = 1
record_eras: record_eras = 1000
expelled: expelled = 'stay'
expelled: expelled = 'end'
join: join = []
join: join = ['db1.example:7000', '10.0.0.2:7000', 'localhost:1']
join: join = ['1.1.1.1:1', '1.1.1.1:2', '1.1.1.1:3', '1.1.1.1:4', '1.1.1.1:5', '1.1.1.1:6', '1.1.1.1:7', '1.1.1.1:8']";

/// Lines that are refused, each after the key that is named. With a key alone the file has no line of it.
const REFUSED: &str = "file
file: file = 1
group
group: group = -1
group: group = '7'
me
me: me = '10.0.0.1:0'
me: me = '10.0.0.1:07000'
me: me = '[::1]:7000'
control
control: control = 8000
control: control = 'localhost:8000'
control: control = 'control'
preset: preset = ''
preset: preset = 'Lan'
preset: preset = 'lan '
preset: preset = 1
tick_ms: tick_ms = 0
tick_ms: tick_ms = 60001
tick_ms: tick_ms = 1.0
lambda: lambda = 0
lambda: lambda = 17
period: period = 1
period: period = 1001
direct: direct = 0
direct: direct = 10
direct: period = 3
direct: preset = 'wan'; period = 5
suspect: suspect = 0
suspect: suspect = 100001
forget: forget = 0
forget: forget = 1000001
helpers: helpers = -1
helpers: helpers = 9
limit: limit = 0
limit: limit = 65537
block: block = 0
block: block = 1025
block: block = '1'
rules: rules = 0
rules: rules = 3
rules: rules = 'two'
random_key: random_key = ''
random_key: random_key = 'zz'
random_key: random_key = 32
rejoin: rejoin = -1
rejoin: rejoin = 1000001
rejoin: rejoin = '300'
introduce: introduce = -1
introduce: introduce = 257
introduce: introduce = 'all'
expelled: expelled = ''
expelled: expelled = 'End'
expelled: expelled = true
record: record = ''
record: record = 8
record_eras: record_eras = 0
record_eras: record_eras = 1001
join: join = '10.0.0.2:7000'
join: join = [7000]
join: join = ['10.0.0.2']
join: join = ['db1.example']
join: join = ['db1.example:0']
join: join = ['db1 example:7000']
join: join = [':7000']
join: join = ['1.1.1.1:1', '1.1.1.1:2', '1.1.1.1:3', '1.1.1.1:4', '1.1.1.1:5', '1.1.1.1:6', '1.1.1.1:7', '1.1.1.1:8', '1.1.1.1:9']";

/// Lines of which several can be refused, after the first of them.
const FIRST_REFUSED: &str = "control: preset = 0; control = 0
preset: tick_ms = 0; preset = 0
lambda: limit = 0; lambda = 0
limit: block = 0; limit = 0
block: rules = 0; block = 0
rules: random_key = 0; rules = 0
join: rejoin = -1; join = 0
rejoin: expelled = 0; rejoin = -1
expelled: alpha = 1; expelled = 0
alpha: beta = 1; alpha = 1
table: [table]
gamma: gamma.delta = 1
lambda_2-x: lambda_2-x = 1
\"\": '' = 1
\"a b\": 'a b' = 1
\"a\\nb\": \"a\\nb\" = 1
\"\\u{1b}\\0\": \"\\u001b\\u0000\" = 1
toml: tick_ms = 1; tick_ms = 1
toml: tick_ms
toml: tick_ms = 9223372036854775808";

/// A file of the least lines, and of these, which have that of this key.
fn file_with(alloc: Global, key: &str, lines: &str) -> Result<String, AllocError> {
    let mut text = String::new(alloc);
    for line in LEAST.lines() {
        if line.split(' ').next() != Some(key) {
            text.push_str(line)?;
            text.push('\n')?;
        }
    }
    for line in lines.split("; ") {
        text.push_str(line)?;
        text.push('\n')?;
    }
    Ok(text)
}

/// What a file is refused for, and nothing where it is not.
fn refusal_of(alloc: Global, bytes: &[u8]) -> Result<String, AllocError> {
    match read_settings(alloc, bytes) {
        Ok(_) => Ok(String::new(alloc)),
        Err(refusal) => format!(in alloc; "{refusal}"),
    }
}

/// What the file of a row above is refused for.
fn refusal_in(alloc: Global, row: &str) -> Result<String, AllocError> {
    let (key, lines) = row.split_once(": ").unwrap_or((row, ""));
    let text = file_with(alloc, key, lines)?;
    refusal_of(alloc, text.as_bytes())
}

#[test]
fn defaults(rt: HostRuntime) -> Result<(), Fail> {
    let text = given(&rt, file_with(rt.alloc(), "join", ""));
    let RunSettings {
        file,
        settings,
        has_rules,
        control,
        preset,
        tick_ms,
        limit,
        random_key,
        join,
        rejoin,
        introduce,
        ends_expelled,
        record_folder,
        record_eras,
        log,
    } = read_settings(rt.alloc(), text.as_bytes())?;
    same(&rt, file.as_str(), "s");
    same(&rt, settings.group, 7);
    same(&rt, Some(settings.me), Endpoint::new(0x0a00_0001, 7000));
    let local = Endpoint::new(0x7f00_0001, 8000);
    holds(
        &rt,
        matches!(control, ControlPlace::Tcp(at) if local == Some(at)),
    );
    holds(&rt, preset.is_none());
    same(&rt, tick_ms, 100);
    same(&rt, settings.lambda, 3);
    same(&rt, settings.period, 10);
    same(&rt, settings.direct, 3);
    same(&rt, settings.suspect, 50);
    same(&rt, settings.forget, 6000);
    same(&rt, settings.helpers, 3);
    same(&rt, limit, 4096);
    same(&rt, settings.block, 1);
    same(&rt, settings.rules, 1);
    holds(&rt, !has_rules);
    holds(&rt, random_key.is_none());
    same(&rt, join.len(), 0);
    same(&rt, rejoin, 300);
    same(&rt, introduce, 64);
    holds(&rt, !ends_expelled);
    holds(&rt, record_folder.is_none());
    same(&rt, record_eras, 8);
    holds(&rt, log.is_none());
    Ok(())
}

#[test]
fn every_key(rt: HostRuntime) -> Result<(), Fail> {
    let lines = "tick_ms = 20\nlambda = 5\nperiod = 8\ndirect = 7\nsuspect = 90\nforget = 400
helpers = 0\nlimit = 20\nblock = 64\nrules = 2\nrejoin = 90\nintroduce = 256\nexpelled = 'end'
record = 'eras'\nrecord_eras = 3\nlog = 'debug'
join = ['10.0.0.2:7000', '10.0.0.3:7001']
random_key = '000102030405060708090a0b0c0d0e0f101112131415161718191A1B1C1D1E1F'\n";
    let text = given(&rt, file_with(rt.alloc(), "join", lines));
    let run = given(&rt, read_settings(rt.alloc(), text.as_bytes()));
    same(&rt, run.tick_ms, 20);
    same(&rt, run.settings.lambda, 5);
    same(&rt, run.settings.period, 8);
    same(&rt, run.settings.direct, 7);
    same(&rt, run.settings.suspect, 90);
    same(&rt, run.settings.forget, 400);
    same(&rt, run.settings.helpers, 0);
    same(&rt, run.limit, 20);
    same(&rt, run.settings.block, 64);
    same(&rt, run.settings.rules, 2);
    let peers = [
        Endpoint::new(0x0a00_0002, 7000),
        Endpoint::new(0x0a00_0003, 7001),
    ];
    same(&rt, run.rejoin, 90);
    same(&rt, run.introduce, 256);
    holds(&rt, run.ends_expelled);
    same(&rt, run.record_eras, 3);
    holds(&rt, run.log == Some(Level::Debug));
    let folder = run.record_folder.unwrap_or(String::new(rt.alloc()));
    same(&rt, folder.as_str(), "eras");
    same(&rt, run.join.len(), 2);
    for (place, peer) in run.join.as_slice().iter().zip(peers) {
        same(&rt, Some(*place), peer.map(Place::Member));
    }
    let bytes = run.random_key.unwrap_or([0; 32]);
    for (index, byte) in bytes.iter().enumerate() {
        same(&rt, usize::from(*byte), index);
    }
    Ok(())
}

/// The times of each preset, after its name: `tick_ms`, `lambda`, `period`, `direct`, `suspect`, `forget`, `helpers`, `rejoin`.
const PRESETS: &str = "local 20 3 10 3 50 3000 3 100
lan 50 3 10 2 80 12000 5 600
wan 200 4 15 5 150 6000 3 50";

/// The times of settings, as a row of that table has them.
fn times_in(alloc: Global, run: &RunSettings) -> Result<String, AllocError> {
    let DefaultTimes {
        tick_ms,
        lambda,
        period,
        direct,
        suspect,
        forget,
        helpers,
        rejoin,
    } = DefaultTimes {
        tick_ms: run.tick_ms,
        lambda: u64::from(run.settings.lambda),
        period: run.settings.period,
        direct: run.settings.direct,
        suspect: run.settings.suspect,
        forget: run.settings.forget,
        helpers: run.settings.helpers as u64,
        rejoin: run.rejoin,
    };
    format!(in alloc; "{tick_ms} {lambda} {period} {direct} {suspect} {forget} {helpers} {rejoin}")
}

#[test]
fn presets(rt: HostRuntime) -> Result<(), Fail> {
    for row in PRESETS.lines() {
        let (name, times) = row.split_once(" ").unwrap_or((row, ""));
        let lines = given(&rt, format!(in rt.alloc(); "preset = '{name}'"));
        let text = given(&rt, file_with(rt.alloc(), "preset", lines.as_str()));
        let run = given(&rt, read_settings(rt.alloc(), text.as_bytes()));
        let found = given(&rt, times_in(rt.alloc(), &run));
        same_at(&rt, &row, found.as_str(), times);
    }
    let lines =
        "preset = 'wan'; rejoin = 7; tick_ms = 1000; lambda = 9; period = 9; direct = 8; suspect = 6; forget = 5";
    let text = given(&rt, file_with(rt.alloc(), "preset", lines));
    let run = given(&rt, read_settings(rt.alloc(), text.as_bytes()));
    let found = given(&rt, times_in(rt.alloc(), &run));
    same(&rt, found.as_str(), "1000 9 9 8 6 5 3 7");
    Ok(())
}

/// Lines that a file gets while its member runs, and the keys that need a restart for them.
const RELOADED: &str = "# nothing:
join = ['10.0.0.2:7000']; rejoin = 7; introduce = 0; record = 'eras'; record_eras = 3:
period = 9; rejoin = 7: period
record_eras = 3; rules = 2; limit = 20: limit rules
preset = 'lan': preset tick_ms direct suspect forget helpers
preset = 'local': preset tick_ms forget
tick_ms = 20; lambda = 5; period = 8; direct = 7; suspect = 90; forget = 400: tick_ms lambda period direct suspect forget
helpers = 0; limit = 20; block = 64; expelled = 'end': helpers limit block expelled
random_key = '000102030405060708090a0b0c0d0e0f101112131415161718191A1B1C1D1E1F': random_key";

/// The texts of keys, with a space between them.
fn texts_of(alloc: Global, keys: &[Key]) -> Result<String, AllocError> {
    let mut text = String::new(alloc);
    for key in keys {
        if !text.is_empty() {
            text.push(' ')?;
        }
        text.push_str(key.text())?;
    }
    Ok(text)
}

/// The keys that need a restart where a file that has the least lines gets these.
#[test]
fn restarts(rt: HostRuntime) -> Result<(), Fail> {
    let alloc = rt.alloc();
    for row in RELOADED.lines() {
        let (lines, keys) = row.rsplit_once(":").unwrap_or((row, ""));
        let now = read_settings(alloc, file_with(alloc, "join", "")?.as_bytes())?;
        let then = read_settings(alloc, file_with(alloc, "join", lines)?.as_bytes())?;
        let told = given(&rt, texts_of(alloc, restart_keys(&now, &then).as_slice()));
        same_at(&rt, &row, told.as_str(), keys.trim());
    }
    Ok(())
}

/// A running member takes the keys that need no restart, and no others.
#[test]
fn taken_anew(rt: HostRuntime) -> Result<(), Fail> {
    let alloc = rt.alloc();
    let lines =
        "join = ['10.0.0.2:7000']; rejoin = 7; introduce = 0; record = 'eras'; record_eras = 3; limit = 20";
    let mut now = read_settings(alloc, file_with(alloc, "join", "")?.as_bytes())?;
    now.take_anew(read_settings(alloc, file_with(alloc, "join", lines)?.as_bytes())?);
    same(&rt, now.join.len(), 1);
    same(&rt, now.rejoin, 7);
    same(&rt, now.introduce, 0);
    same(&rt, now.folder(), Some("eras"));
    same(&rt, now.record_eras, 3);
    same(&rt, now.limit, 4096);
    Ok(())
}

/// Lines of files, of which each shows the same settings again.
const SHOWN: &str = "rules = 2
preset = 'lan'; period = 8
join = ['1.1.1.1:1', 'db1.example:7000', '255.255.255.255:65535']; expelled = 'end'
record = 'a \"folder\"'; record_eras = 1000; rejoin = 0; helpers = 0
group = 9223372036854775807; limit = 65536; block = 1024";

#[test]
fn shown_settings(rt: HostRuntime) -> Result<(), Fail> {
    for row in SHOWN.lines() {
        let (key, _) = row.split_once(" ").unwrap_or((row, ""));
        let text = given(&rt, file_with(rt.alloc(), key, row));
        let run = given(&rt, read_settings(rt.alloc(), text.as_bytes()));
        let shown = given(&rt, show_settings(rt.alloc(), &run));
        let again = given(&rt, read_settings(rt.alloc(), shown.as_bytes()));
        let shown_again = given(&rt, show_settings(rt.alloc(), &again));
        same_at(&rt, &row, shown_again.as_str(), shown.as_str());
    }
    let text = file_with(
        rt.alloc(),
        "join",
        "join = ['10.0.0.2:7000']; preset = 'lan'",
    )?;
    let run = given(&rt, read_settings(rt.alloc(), text.as_bytes()));
    let shown = given(&rt, show_settings(rt.alloc(), &run));
    same(&rt, shown.as_str(), WHOLE);
    Ok(())
}

/// What is shown of the least file with a preset and a list. The last numbers are counted by hand: `period / (1 - (1 - 1/m)^m)`, `2 m`
/// periods, and `suspect` more.
const WHOLE: &str = "file = \"s\"
group = 7
me = \"10.0.0.1:7000\"
control = \"127.0.0.1:8000\"
preset = \"lan\"
tick_ms = 50
lambda = 3
period = 10
direct = 2
suspect = 80
forget = 12000
helpers = 5
limit = 4096
block = 1
rules = 1
join = [\"10.0.0.2:7000\"]
rejoin = 600
introduce = 64
expelled = \"stay\"
record_eras = 8
# A member that stops, in seconds: when the first of the others suspects it, on the mean; when each of them suspects it,
# at the latest; and when each confirms it, at the latest. For the mean targets are drawn at random. The latest times are
# those of a member that nobody tells anything, and are longer where its ticks are late.
# members      first       each  confirmed
#       4      0.710      3.000      7.000
#      10      0.765      9.000     13.000
#      50      0.786     49.000     53.000
#     257      0.790    256.000    260.000
";

#[test]
fn taken_values(rt: HostRuntime) -> Result<(), Fail> {
    for row in TAKEN.lines() {
        let refusal = given(&rt, refusal_in(rt.alloc(), row));
        same_at(&rt, &row, refusal.as_str(), "");
    }
    Ok(())
}

/// The key that a row names.
fn key_of(row: &str) -> &str {
    row.split_once(": ").map_or(row, |parts| parts.0)
}

#[test]
fn refused_values(rt: HostRuntime) -> Result<(), Fail> {
    for rows in [REFUSED, FIRST_REFUSED] {
        for row in rows.lines() {
            let refusal = given(&rt, refusal_in(rt.alloc(), row));
            same_at(&rt, &row, refusal.as_str(), key_of(row));
        }
    }
    Ok(())
}

#[test]
fn files_without_a_line_that_is_read(rt: HostRuntime) -> Result<(), Fail> {
    let empty = given(&rt, refusal_of(rt.alloc(), b""));
    same(&rt, empty.as_str(), "file");
    let no_text = given(&rt, refusal_of(rt.alloc(), b"\xff\xfe"));
    same(&rt, no_text.as_str(), "toml");
    Ok(())
}

//! Words and configurations that are read or refused.
use crate::expecting::holds;
use std::alloc::{AllocError, Global};
use std::process::Abort;
use std::test::Fail;
use tool_setup::{
    Arg, Command, Config, ConfigFault, Field, Lowers, WordList, WordsFault, read_config, read_words,
};

// The words of a line, with one space between each two.
fn words_of(alloc: Global, line: &str) -> Result<WordList, AllocError> {
    let mut words = Vec::new(alloc);
    for word in line.split(' ') {
        words.push(String::from_str(alloc, word)?)?;
    }
    Ok(WordList::from_vec(words))
}

const READ: [(&str, Command); 20] = [
    ("flatten", Command::Flatten { stdin: false }),
    ("flatten --stdin", Command::Flatten { stdin: true }),
    ("info 02", Command::Info(2)),
    ("info -- 2", Command::Info(2)),
    ("stack", Command::Stack),
    ("create", Command::Create(None)),
    ("create --sectors=8", Command::Create(Some(8))),
    (
        "create --sectors 2147483648",
        Command::Create(Some(2147483648)),
    ),
    ("grow 16", Command::Grow(16)),
    ("read 0 08", Command::Read { at: 0, count: 8 }),
    ("write 00000000000000000003", Command::Write { at: 3 }),
    ("zero 1 0", Command::Zero { at: 1, count: 0 }),
    (
        "commit 22222222-2222-2222-2222-222222222222",
        Command::Commit([0x22; 16]),
    ),
    (
        "commit abababababababababababababababab",
        Command::Commit([0xAB; 16]),
    ),
    (
        "commit {ABABABAB-abab-abab-abab-abababababab}",
        Command::Commit([0xAB; 16]),
    ),
    (
        "commit urn:uuid:22222222-2222-2222-2222-222222222222",
        Command::Commit([0x22; 16]),
    ),
    ("sweep", Command::Sweep),
    (
        "make 2147483647 100000",
        Command::Make {
            seed: 2147483647,
            acts: 100000,
        },
    ),
    (
        "export",
        Command::Export {
            connections: 1000000,
        },
    ),
    ("export --connections=1", Command::Export { connections: 1 }),
];

const REFUSED: [(&str, WordsFault); 45] = [
    ("", WordsFault::UnknownCommand),
    ("flat", WordsFault::UnknownCommand),
    ("Flatten", WordsFault::UnknownCommand),
    ("--stdin", WordsFault::UnknownCommand),
    ("help", WordsFault::UnknownCommand),
    ("flatten --stdin --stdin", WordsFault::BadWords),
    ("flatten --stdin=true", WordsFault::BadWords),
    ("flatten --stdi", WordsFault::BadWords),
    ("flatten x", WordsFault::BadWords),
    ("flatten -h", WordsFault::BadWords),
    ("flatten --help", WordsFault::BadWords),
    ("info", WordsFault::BadWords),
    ("info 0 1", WordsFault::BadWords),
    ("info -1", WordsFault::BadWords),
    ("info +1", WordsFault::BadValue(Arg::Layer)),
    ("info ", WordsFault::BadValue(Arg::Layer)),
    ("info 0x1", WordsFault::BadValue(Arg::Layer)),
    ("info 2147483649", WordsFault::BadValue(Arg::Layer)),
    (
        "info 000000000000000000001",
        WordsFault::BadValue(Arg::Layer),
    ),
    ("stack 0", WordsFault::BadWords),
    ("stack --version", WordsFault::BadWords),
    ("create 8", WordsFault::BadWords),
    ("create --sectors", WordsFault::BadWords),
    ("create --sectors 8 --sectors 8", WordsFault::BadWords),
    ("create --sectors 0", WordsFault::BadValue(Arg::Sectors)),
    ("create --sectors=", WordsFault::BadValue(Arg::Sectors)),
    (
        "create --sectors=2147483649",
        WordsFault::BadValue(Arg::Sectors),
    ),
    ("grow", WordsFault::BadWords),
    ("grow 0", WordsFault::BadValue(Arg::Sectors)),
    ("read 0", WordsFault::BadWords),
    ("read 0 1 2", WordsFault::BadWords),
    ("read 0 x", WordsFault::BadValue(Arg::Count)),
    ("read x y", WordsFault::BadValue(Arg::At)),
    ("write", WordsFault::BadWords),
    ("write -- -1", WordsFault::BadValue(Arg::At)),
    ("zero 0 2147483649", WordsFault::BadValue(Arg::Count)),
    ("commit", WordsFault::BadWords),
    ("commit 1111", WordsFault::BadValue(Arg::Uuid)),
    (
        "commit 00000000-0000-0000-0000-000000000000",
        WordsFault::BadValue(Arg::Uuid),
    ),
    ("sweep now", WordsFault::BadWords),
    ("make 2147483648 0", WordsFault::BadValue(Arg::Seed)),
    ("make 0 100001", WordsFault::BadValue(Arg::Acts)),
    ("export 1", WordsFault::BadWords),
    (
        "export --connections 0",
        WordsFault::BadValue(Arg::Connections),
    ),
    (
        "export --connections=1000001",
        WordsFault::BadValue(Arg::Connections),
    ),
];

fn is_read(
    alloc: Global,
    line: &str,
    answer: Result<Command, WordsFault>,
) -> Result<bool, AllocError> {
    Ok(read_words(alloc, &words_of(alloc, line)?) == answer)
}

fn are_read(rt: &impl Abort, alloc: Global, cases: &[(&str, Command)]) -> Result<(), Fail> {
    for (line, command) in cases {
        holds(rt, is_read(alloc, line, Ok(*command))?, line);
    }
    Ok(())
}

fn are_refused(rt: &impl Abort, alloc: Global, cases: &[(&str, WordsFault)]) -> Result<(), Fail> {
    for (line, fault) in cases {
        holds(rt, is_read(alloc, line, Err(*fault))?, line);
    }
    Ok(())
}

#[test]
fn words_are_read(rt: HostRuntime) -> Result<(), Fail> {
    are_read(&rt, rt.alloc(), &READ)
}

#[test]
fn words_are_refused(rt: HostRuntime) -> Result<(), Fail> {
    let alloc = rt.alloc();
    are_refused(&rt, alloc, &REFUSED)?;
    let none = WordList::from_vec(Vec::new(alloc));
    let answer = read_words(alloc, &none);
    holds(&rt, answer == Err(WordsFault::NoCommand), "no words");
    Ok(())
}

const BAD: [(&str, ConfigFault); 51] = [
    ("", ConfigFault::NotJson),
    ("{", ConfigFault::NotJson),
    ("{\"disk\":\"d\"", ConfigFault::NotJson),
    ("{\"disk\":\"d\",}", ConfigFault::NotJson),
    ("{\"disk\":\"d\"} x", ConfigFault::NotJson),
    ("{\"disk\":\"\\u12\"}", ConfigFault::NotJson),
    ("{disk:\"d\"}", ConfigFault::NotJson),
    ("nul", ConfigFault::NotJson),
    ("[]", ConfigFault::NotObject),
    ("null", ConfigFault::NotObject),
    ("1", ConfigFault::NotObject),
    ("\"disk\"", ConfigFault::NotObject),
    ("{\"x\":1}", ConfigFault::UnknownField),
    ("{\"Disk\":\"d\"}", ConfigFault::UnknownField),
    ("{\"disk\":\"d\",\"disks\":1}", ConfigFault::UnknownField),
    ("{\"\":0,\"disk\":1}", ConfigFault::UnknownField),
    ("{}", ConfigFault::Missing(Field::Disk)),
    ("{\"lanes\":0}", ConfigFault::Missing(Field::Disk)),
    ("{\"disk\":\"\"}", ConfigFault::BadField(Field::Disk)),
    ("{\"disk\":1}", ConfigFault::BadField(Field::Disk)),
    ("{\"disk\":null}", ConfigFault::BadField(Field::Disk)),
    ("{\"disk\":[\"d\"]}", ConfigFault::BadField(Field::Disk)),
    (
        "{\"disk\":\"d\",\"disk\":\"\"}",
        ConfigFault::BadField(Field::Disk),
    ),
    (
        "{\"lanes\":0,\"disk\":\"\"}",
        ConfigFault::BadField(Field::Disk),
    ),
    (
        "{\"disk\":\"d\",\"lowers\":[]}",
        ConfigFault::BadField(Field::Lowers),
    ),
    (
        "{\"disk\":\"d\",\"lowers\":{}}",
        ConfigFault::BadField(Field::Lowers),
    ),
    (
        "{\"disk\":\"d\",\"lowers\":{\"files\":\"a\"}}",
        ConfigFault::BadField(Field::Lowers),
    ),
    (
        "{\"disk\":\"d\",\"lowers\":{\"files\":[\"a\",1]}}",
        ConfigFault::BadField(Field::Lowers),
    ),
    (
        "{\"disk\":\"d\",\"lowers\":{\"files\":[],\"x\":1}}",
        ConfigFault::BadField(Field::Lowers),
    ),
    (
        "{\"disk\":\"d\",\"lowers\":{\"host\":\"h\"}}",
        ConfigFault::BadField(Field::Lowers),
    ),
    (
        "{\"disk\":\"d\",\"lowers\":{\"paths\":[\"/a\"]}}",
        ConfigFault::BadField(Field::Lowers),
    ),
    (
        "{\"disk\":\"d\",\"lowers\":{\"host\":\"h\",\"paths\":[\"a\"]}}",
        ConfigFault::BadField(Field::Lowers),
    ),
    (
        "{\"disk\":\"d\",\"lowers\":{\"host\":\"h\",\"paths\":[\"/a b\"]}}",
        ConfigFault::BadField(Field::Lowers),
    ),
    (
        "{\"disk\":\"d\",\"lowers\":{\"host\":\"h\",\"paths\":[\"/<\"]}}",
        ConfigFault::BadField(Field::Lowers),
    ),
    (
        "{\"disk\":\"d\",\"lowers\":{\"host\":\"h h\",\"paths\":[]}}",
        ConfigFault::BadField(Field::Lowers),
    ),
    (
        "{\"disk\":\"d\",\"lowers\":{\"host\":\"h\",\"paths\":[],\"files\":[]}}",
        ConfigFault::BadField(Field::Lowers),
    ),
    (
        "{\"disk\":\"d\",\"export\":1}",
        ConfigFault::BadField(Field::Export),
    ),
    (
        "{\"disk\":\"d\",\"export\":null}",
        ConfigFault::BadField(Field::Export),
    ),
    (
        "{\"disk\":\"d\",\"read_only\":\"true\"}",
        ConfigFault::BadField(Field::ReadOnly),
    ),
    (
        "{\"disk\":\"d\",\"read_only\":0}",
        ConfigFault::BadField(Field::ReadOnly),
    ),
    (
        "{\"disk\":\"d\",\"cache_blocks\":0}",
        ConfigFault::BadField(Field::CacheBlocks),
    ),
    (
        "{\"disk\":\"d\",\"cache_blocks\":16385}",
        ConfigFault::BadField(Field::CacheBlocks),
    ),
    (
        "{\"disk\":\"d\",\"cache_blocks\":1.5}",
        ConfigFault::BadField(Field::CacheBlocks),
    ),
    (
        "{\"disk\":\"d\",\"cache_blocks\":-1}",
        ConfigFault::BadField(Field::CacheBlocks),
    ),
    (
        "{\"disk\":\"d\",\"lanes\":0}",
        ConfigFault::BadField(Field::Lanes),
    ),
    (
        "{\"disk\":\"d\",\"lanes\":17}",
        ConfigFault::BadField(Field::Lanes),
    ),
    (
        "{\"disk\":\"d\",\"lanes\":\"2\"}",
        ConfigFault::BadField(Field::Lanes),
    ),
    (
        "{\"control\":\"\",\"disk\":\"d\",\"lanes\":17}",
        ConfigFault::BadField(Field::Lanes),
    ),
    (
        "{\"disk\":\"d\",\"listen\":\"\"}",
        ConfigFault::BadField(Field::Listen),
    ),
    (
        "{\"disk\":\"d\",\"control\":\"\"}",
        ConfigFault::BadField(Field::Control),
    ),
    (
        "{\"disk\":\"d\",\"control\":10810}",
        ConfigFault::BadField(Field::Control),
    ),
];

// Whether the text is refused so.
fn is_refused(alloc: Global, text: &[u8], fault: ConfigFault) -> bool {
    match read_config(alloc, text) {
        Ok(_) => false,
        Err(found) => found == fault,
    }
}

// An array that is nested so deep.
fn nested(alloc: Global, depth: usize) -> Result<Vec<u8>, AllocError> {
    let mut text = Vec::new(alloc);
    text.resize(depth, b'[')?;
    text.resize(depth.saturating_mul(2), b']')?;
    Ok(text)
}

fn are_faulty(rt: &impl Abort, alloc: Global, cases: &[(&str, ConfigFault)]) {
    for (text, fault) in cases {
        holds(rt, is_refused(alloc, text.as_bytes(), *fault), text);
    }
}

#[test]
fn configurations_are_refused(rt: HostRuntime) -> Result<(), Fail> {
    let alloc = rt.alloc();
    are_faulty(&rt, alloc, &BAD);
    let deep = nested(alloc, 127)?;
    holds(
        &rt,
        is_refused(alloc, &deep, ConfigFault::NotObject),
        "127 deep",
    );
    let deeper = nested(alloc, 128)?;
    holds(
        &rt,
        is_refused(alloc, &deeper, ConfigFault::NotJson),
        "128 deep",
    );
    holds(
        &rt,
        is_refused(alloc, b"\xFF", ConfigFault::NotJson),
        "not UTF-8",
    );
    Ok(())
}

// What a configuration says. The host is empty for files.
struct Wanted {
    disk: &'static [u8],
    host: &'static [u8],
    lowers: usize,
    export: &'static [u8],
    read_only: bool,
    cache_blocks: u32,
    lanes: u32,
    listen: &'static [u8],
    control: &'static [u8],
}

// Whether the lowers are so many of this host.
fn are_lowers(lowers: &Lowers, host: &[u8], count: usize) -> bool {
    match lowers {
        Lowers::Files(files) => host.is_empty() && files.as_slice().len() == count,
        Lowers::Remote { host: found, paths } => found.as_slice() == host
            && paths.as_slice().len() == count,
    }
}

fn has_texts(config: &Config, wanted: &Wanted) -> bool {
    config.disk.as_slice() == wanted.disk
        && config.export.as_slice() == wanted.export
        && config.listen.as_slice() == wanted.listen
        && config.control.as_slice() == wanted.control
}

fn has_numbers(config: &Config, wanted: &Wanted) -> bool {
    config.read_only == wanted.read_only
        && config.cache_blocks == wanted.cache_blocks
        && config.lanes == wanted.lanes
}

// Whether the text is read as that.
fn says(alloc: Global, text: &[u8], wanted: &Wanted) -> bool {
    match read_config(alloc, text) {
        Ok(config) => {
            has_texts(&config, wanted)
                && has_numbers(&config, wanted)
                && are_lowers(&config.lowers, wanted.host, wanted.lowers)
        }
        Err(_) => false,
    }
}

const LEAST: Wanted = Wanted {
    disk: b"d",
    host: b"",
    lowers: 0,
    export: b"",
    read_only: false,
    cache_blocks: 1024,
    lanes: 2,
    listen: b"127.0.0.1:10809",
    control: b"127.0.0.1:10810",
};

const ALL: Wanted = Wanted {
    disk: b"d",
    host: b"h:80",
    lowers: 2,
    export: b"img",
    read_only: true,
    cache_blocks: 16384,
    lanes: 16,
    listen: b"[::1]:1",
    control: b"c:2",
};

#[test]
fn each_field_is_read(rt: HostRuntime) {
    let text = b"{\"disk\":\"\",\"disk\":\"d\"}";
    holds(&rt, says(rt.alloc(), text, &LEAST), "the defaults");
    let text =
        b"{ \"disk\": \"d\", \"lowers\": {\"host\": \"h:80\", \"paths\": [\"/a\", \"/b\"]}, \"export\": \"img\",
        \"read_only\": true, \"cache_blocks\": 16384, \"lanes\": 16, \"listen\": \"[::1]:1\", \"control\": \"c:2\" }";
    holds(&rt, says(rt.alloc(), text, &ALL), "all fields");
}

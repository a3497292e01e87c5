// Reads lines of commands from standard input to its end and tells a listener what changes: slots in runs, or with --each each slot by itself.
#![tactic(auto)]

use std::rt::Env;

// Whether the first argument is --each. What else may stand there is for the script that runs this to look at.
fn tells_each(rt: &impl Env) -> bool {
    let mut word = [0u8; 4096];
    match rt.arg(1, &mut word) {
        Ok(length) => &word[..length] == b"--each".as_slice(),
        Err(_) => false,
    }
}

fn main(rt: HostRuntime) {
    let mut out = [0u8; spoken::SPEECH_ROOM];
    let runs = !tells_each(&rt);
    let _ = session_lines::run(&rt, &mut rt.stdin(), speak_lines::begin(runs), &mut out);
}

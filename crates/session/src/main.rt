// Reads lines of commands from standard input to its end and writes what each is answered (01, 'Session').
#![tactic(auto)]

fn main(rt: HostRuntime) {
    let mut out = [0u8; session_lines::OUTPUT_ROOM];
    let _ = session_lines::run(&rt, &mut rt.stdin(), session_lines::begin(), &mut out);
}

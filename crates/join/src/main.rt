// The program `join`: joins the sheets in the two files that its arguments name, and prints the joined sheet, or why there is none.
#![tactic(auto)]

// Prints the joined sheet, or the line of a refusal.
fn print(rt: HostRuntime, one: &[u8], two: &[u8]) {
    let mut joined: [u8; joining::JOINED_ROOM] = field::room();
    match joining::join(one, two, &mut joined) {
        Ok(end) => streams::print(rt, &joined[..end]),
        Err(e) => {
            let mut line = [0u8; 30];
            let end = text::put_refused(e.cause.number(), e.detail, &mut line);
            streams::print(rt, &line[..end])
        }
    };
}

fn main(rt: HostRuntime) {
    if streams::arg_count(rt) != 3 {
        streams::tell(
            rt,
            b"join takes the names of two files, each with a sheet\n",
        );
        return;
    }
    let mut one = sheet::sheet_room();
    let Some(n) = streams::read_file(rt, 1, &mut one) else {
        return;
    };
    let mut two = sheet::sheet_room();
    let Some(m) = streams::read_file(rt, 2, &mut two) else {
        return;
    };
    print(rt, &one[..n], &two[..m]);
}

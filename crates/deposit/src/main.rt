// The program `deposit`: reads a sheet from standard input, and prints the text of its deposit.
#![tactic(auto)]

fn main(rt: HostRuntime) {
    let mut sheet = sheet::sheet_room();
    let Some(n) = streams::read_input(rt, &mut sheet) else {
        return;
    };
    let mut text: [u8; archive::TEXT_LENGTH] = field::room();
    // A sheet that is refused has a text too: the call is turned down for the length of a buffer alone.
    if let Ok(end) = archive::deposit(&sheet[..n], &mut text) {
        streams::print(rt, &text[..end]);
    }
}

// The desk bench: plays a script of one command a line over the driver, and prints what came of each.
//
//     bench [plain|words] < SCRIPT
#![tactic(auto)]

mod heard;
mod input;
mod line;
mod report;
mod style;
mod terse;

use style::Style;

fn main(rt: HostRuntime) {
    let style = style::chosen(&rt);
    match style {
        Style::Plain => input::play(rt, true),
        Style::Words => input::play(rt, false),
        Style::Unknown => {
            let _ = rt
                .stderr()
                .write_all(b"bench: the style is plain or words\n");
        }
    }
}

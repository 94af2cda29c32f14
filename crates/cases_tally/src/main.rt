// Small whole streams, each put in chunks, as a script on standard input: document 01, "Tally program". Held to the
// file stdout. A line is `LABEL: VERB BYTES` (crate case_lines), and all words behind the verb are bytes in
// hexadecimal.
//
//     new             a stream of which nothing has come
//     put CUT BYTES   bytes of the stream, CUT of them a chunk: two bytes, 1 to 1,000
//     end             the text that the tally program would write
#![tactic(auto)]

mod feed;

use case_lines::play_all;
use feed::Feed;
use std::io;

// The bytes behind CUT.
fn put_cut(feed: &mut Feed, bytes: &[u8]) {
    let [high, low, record @ ..] = bytes else {
        return;
    };
    let cut = usize::from(u16::from_be_bytes([*high, *low]));
    if 1 <= cut && cut <= 1000 {
        feed.put(record, cut);
    }
}

// A verb that is none of these is said as `?`.
fn play(rt: &impl Print, feed: &mut Feed, verb: u8, bytes: &[u8]) -> io::Result<()> {
    match verb {
        b'n' => *feed = Feed::start(),
        b'p' => put_cut(feed, bytes),
        b'e' => feed.end(rt)?,
        _ => println!(rt; "?")?,
    }
    Ok(())
}

fn main(rt: HostRuntime) -> io::Result<()> {
    let mut feed = Feed::start();
    let mut space = [0u8; 4096];
    play_all(
        &rt,
        &mut rt.stdin(),
        &mut space,
        |verb, bytes| play(&rt, &mut feed, verb, bytes),
    )
}

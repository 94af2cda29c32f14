// A stream fed record by record, each cut into chunks, and the text at its end.
ghost use Rattle.std.specs.Prelude.{◌≤◌, length};
ghost use Rattle.cases_tally.specs.Feed.{Ready};

use following::{Stream, begin, follow};
use std::io;
use tallying::finish;

// A stream between two chunks: what is held of it stands first in the buffer.
#[derive(Clone, Copy)]
pub(crate) struct Feed {
    stream: Stream,
    buf: [u8; 4096],
    ghost ready: { Ready stream buf },
}

impl Feed {
    // A stream of which nothing has come.
    pub(crate) fn start() -> Feed {
        Feed {
            stream: begin(),
            buf: [0; 4096],
        }
    }

    // One chunk of a record, laid behind the held bytes.
    fn take(&mut self, chunk: &[u8])
        requires { length chunk.now ≤ 1000 }
    {
        let held = self.stream.held;
        if 1000000 < self.stream.accepted || self.buf.len() - held < chunk.len() {
            return;
        }
        self.buf[held..held + chunk.len()].copy_from_slice(chunk);
        self.stream = follow(self.stream, &mut self.buf, chunk.len());
    }

    // A record, so many bytes a chunk.
    pub(crate) fn put(&mut self, record: &[u8], cut: usize)
        requires { (1 ≤ cut) × (cut ≤ 1000) }
    {
        for chunk in record.chunks(cut) {
            self.take(chunk);
        }
    }

    // What the tally program would write, below the stream's name.
    pub(crate) fn end(&self, rt: &impl Print) -> io::Result<()> {
        let mut text = [0u8; 65536];
        let n = finish(self.stream, &self.buf, &mut text);
        println!(rt)?;
        rt.write_all(&text[..n])
    }
}

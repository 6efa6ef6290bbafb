// One server and two desks, which pass messages to one another. Output lies in fixed arrays, since the entries write
// into lent bytes and give a length.
use crate::desk;
use crate::desk::Desk;
use base::bytes;
use client_state::Client;
use numbers::sequence::Sequence;
use numbers::tick::Tick;
use server_state::Server;
use std::io;

#[derive(Drop)]
pub(crate) struct Studio {
    pub server: Server,
    pub seven: Client,
    pub seventy: Client,
    // how much output there is
    pub room: usize,
}

// As much of an output as there is to be.
pub(crate) fn cut(out: &mut [u8], room: usize) -> &mut [u8] {
    let n = room.min(out.len());
    &mut out[..n]
}

// The server at a number and a tick.
pub(crate) fn begin_server(rt: &impl Print, number: u64, at: u64) -> io::Result<Server> {
    print!(rt; "the server starts at number {number} and tick {at}")?;
    let r = server::start(Sequence(number), Tick(at));
    print::answer(rt, r.answer)?;
    Ok(r.state)
}

impl Studio {
    // Before anything is told: a server and two desks that have started with nothing.
    pub fn begin(rt: &impl Print) -> io::Result<Studio> {
        println!(rt; "Before the session:")?;
        Ok(Studio {
            server: begin_server(rt, 0, 0)?,
            seven: desk::begin(rt, b"7", b"", 0)?,
            seventy: desk::begin(rt, b"70", b"", 0)?,
            room: 521,
        })
    }

    // The state of the desk of a name: any name but 7 is that of the other desk.
    pub fn client(&mut self, name: &[u8]) -> &mut Client {
        if name == b"7".as_slice() {
            &mut self.seven
        } else {
            &mut self.seventy
        }
    }

    // What the server publishes goes to both desks.
    fn publish(&mut self, rt: &impl Print, msg: &[u8], at: u64) -> io::Result<()> {
        if msg.is_empty() {
            return Ok(());
        }
        print::hex(rt, b"  it publishes", msg)?;
        let mut seven = Desk {
            name: b"7",
            client: &mut self.seven,
        };
        seven.follow(rt, msg, at)?;
        let mut seventy = Desk {
            name: b"70",
            client: &mut self.seventy,
        };
        seventy.follow(rt, msg, at)
    }

    // A KVSET comes to the server.
    pub fn set(&mut self, rt: &impl Print, msg: &[u8], at: u64) -> io::Result<()> {
        let mut out = [0; 521];
        print!(rt; "  at the server, tick {at}")?;
        let r = server::kvset(self.server, msg, Tick(at), cut(&mut out, self.room));
        self.server = r.state;
        print::answer(rt, r.answer)?;
        self.publish(rt, bytes::front(&out, r.answer.written), at)
    }

    // The server is told the time.
    pub fn tell(&mut self, rt: &impl Print, at: u64) -> io::Result<()> {
        let mut out = [0; 521];
        print!(rt; "the server is told tick {at}")?;
        let r = server::tick(self.server, Tick(at), cut(&mut out, self.room));
        self.server = r.state;
        print::answer(rt, r.answer)?;
        self.publish(rt, bytes::front(&out, r.answer.written), at)
    }

    // The server's answer to a request. It gives the length of the answer.
    pub fn answer(&self, rt: &impl Print, request: &[u8], out: &mut [u8]) -> io::Result<usize> {
        print!(rt; "  at the server")?;
        let a = server::icanhaz(self.server, request, out);
        print::answer(rt, a)?;
        Ok(a.written)
    }
}

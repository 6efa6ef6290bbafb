// The calls on one desk. Each prints a line with its answer.
use base::bytes;
use client_state::Client;
use messages::identity;
use numbers::tick::Tick;
use std::io;

// A desk by the name that a line gives it, and its state.
#[derive(Drop)]
pub(crate) struct Desk<'n, 'c> {
    pub name: &'n [u8],
    pub client: &'c mut Client,
}

// The front of a line that speaks of a desk.
fn front(rt: &impl Print, label: &[u8], name: &[u8]) -> io::Result<()> {
    print::text(rt, label)?;
    print::text(rt, name)
}

// A desk of a name that waits for the snapshot of a subtree.
pub(crate) fn begin(rt: &impl Print, name: &[u8], subtree: &[u8], at: u64) -> io::Result<Client> {
    front(rt, b"desk ", name)?;
    front(rt, b" starts with subtree '", subtree)?;
    print::number(rt, b"' at tick ", at)?;
    let r = client::start(subtree, Tick(at));
    print::answer(rt, r.answer)?;
    Ok(r.state)
}

impl Desk<'_, '_> {
    // A message at the subscriber entry.
    pub fn follow(&mut self, rt: &impl Print, msg: &[u8], at: u64) -> io::Result<()> {
        front(rt, b"  at desk ", self.name)?;
        let r = client::subscriber(*self.client, msg, Tick(at));
        *self.client = r.state;
        print::answer(rt, r.answer)
    }

    // A message at the snapshot entry.
    pub fn take(&mut self, rt: &impl Print, msg: &[u8]) -> io::Result<()> {
        front(rt, b"  at desk ", self.name)?;
        let r = client::snapshot(*self.client, msg);
        *self.client = r.state;
        print::answer(rt, r.answer)
    }

    // A snapshot, which the router hands over message by message, without the identity.
    pub fn take_all(&mut self, rt: &impl Print, run: &[u8]) -> io::Result<()> {
        let mut rest = run;
        while !rest.is_empty() {
            let msg = framing::first_message(rest);
            if msg.is_empty() {
                break;
            }
            self.take(rt, identity::without_identity(msg))?;
            rest = bytes::behind(rest, msg.len());
        }
        Ok(())
    }

    // ICANHAZ. It gives the length of what is written.
    pub fn request(&self, rt: &impl Print, out: &mut [u8]) -> io::Result<usize> {
        front(rt, b"desk ", self.name)?;
        print!(rt; " writes ICANHAZ")?;
        let a = client::write_icanhaz(*self.client, out);
        print::answer(rt, a)?;
        Ok(a.written)
    }

    // KVSET. It gives the length of what is written.
    pub fn update(
        &self,
        rt: &impl Print,
        key: &[u8],
        uuid: &[u8],
        properties: &[u8],
        value: &[u8],
        out: &mut [u8],
    ) -> io::Result<usize> {
        front(rt, b"desk ", self.name)?;
        front(rt, b" writes KVSET ", key)?;
        front(rt, b"=", value)?;
        let a = client::write_kvset(*self.client, key, uuid, properties, value, out);
        print::answer(rt, a)?;
        Ok(a.written)
    }

    // The value of a key.
    pub fn look_up(&self, rt: &impl Print, key: &[u8], out: &mut [u8]) -> io::Result<()> {
        front(rt, b"desk ", self.name)?;
        front(rt, b" looks up ", key)?;
        print::answer(rt, client::lookup(*self.client, key, out))
    }

    // Whether the server is gone.
    pub fn ask(&self, rt: &impl Print, at: u64) -> io::Result<()> {
        front(rt, b"desk ", self.name)?;
        print::number(rt, b" asks at tick ", at)?;
        print::answer(rt, client::ask(*self.client, Tick(at)))
    }
}

// Runs a session of one server and two desks, which standard input tells line by line, and writes what comes of each
// call. What it writes is compared with the file stdout.
//
// A line is a word and its fields, with bars between them. A word is known by its first letter. DESK is 7 or 70. In
// properties and frames \xNN is a byte in hexadecimal; the frame #N is the number N as eight octets.
//   # heading
//   begin|NUMBER|TICK              the server starts
//   desk|DESK|SUBTREE|TICK         a desk starts
//   update|DESK|KEY|UUID|PROPERTIES|VALUE|TICK
//                                  a desk writes KVSET, the server takes it; what it publishes goes to both desks
//   set|TICK|FRAME|..              a message at the server's entry for KVSET
//   tick|TICK                      the server is told the time; what it publishes goes to both desks
//   join|DESK|IDENTITY             a desk writes ICANHAZ, and takes the snapshot that the server answers with
//   exchange|DESK|IDENTITY|DESK    the snapshot that the first desk asked for is handed to the second
//   icanhaz|FRAME|..               a message at the server's entry for ICANHAZ
//   message|DESK|FRAME|..          a message at the snapshot entry of a desk
//   published|DESK|TICK|FRAME|..   a message at the subscriber entry of a desk
//   lookup|DESK|KEY                a desk looks up a key
//   ask|DESK|TICK                  a desk asks whether the server is gone
//   room|BYTES                     from here on there is so much output
#![tactic(auto)]

mod desk;
mod session;
mod studio;

use script::input;
use std::io;

fn main(rt: HostRuntime) -> io::Result<()> {
    session::run(&rt, &input::read(rt.alloc(), rt.reader())?)
}

// Cases of `replay`: plans stored and images read. A plan that is to be stored (`given`) is followed by how many buffers to try and the length
// of each; the buffer that is lent is shown whole, so that bytes past the image are seen to stay. An image that is to be read is its
// length and its bytes; written is the plan. compare/images.rs makes cases and answers.
use super::texts::{BUFFER_BYTES, blank};
use plan::Plan;
use replay_given::numbers::Numbers;
use replay_given::written::{Words, WrittenPlan, said};
use std::io;
use std::io::Stdout;

// A plan, stored in each buffer.
pub fn put_written(to: Stdout, numbers: &mut Numbers) -> io::Result<()> {
    let plan = numbers.plan();
    for _ in 0..numbers.number() {
        let room = numbers.number();
        if let Some(buffer) = blank().get_mut(..room as usize) {
            put_stored(to, plan, buffer)?;
        }
    }
    Ok(())
}

// The plan's image written to a buffer, and the buffer after it.
fn put_stored(to: Stdout, plan: Plan, out: &mut [u8]) -> io::Result<()> {
    let stored = image_write::write_image(plan, out);
    let length = stored.unwrap_or(0);
    println!(to;
        "image {}, length {length},{}",
        said(stored.map(|_| ())),
        Words(out)
    )
}

// An image, read.
pub fn put_read(to: Stdout, numbers: &mut Numbers) -> io::Result<()> {
    let mut buffer = [0; BUFFER_BYTES];
    let read = image_read::read_image(numbers.bytes(&mut buffer));
    let plan = read.unwrap_or(Plan::empty());
    println!(to; "read {}: {}", said(read.map(|_| ())), WrittenPlan(&plan))
}

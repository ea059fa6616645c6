// The day program: it reads an input and writes its day. No contract says what is read or written; what is to be believed stands in `day_print`.
#![tactic(auto)]

// Prints the day of an input, by way of a buffer that is lent for it: what stands at its front, or the line of the refusal.
fn print(input: &[u8], out: &mut [u8]) {
    let printed = day_print::day(input, out);
    match printed {
        Ok(n) => {
            if n <= out.len() {
                io::write_all(1, &out[0..n]);
            }
        }
        Err(r) => {
            io::write_all(1, &printed_frames::refusal_line(r));
        }
    }
}

// One byte more than an input may have is read, so that one that is too long is seen.
fn main() {
    let mut input = [0u8; 65537];
    let mut out = [0u8; 312511];
    let got = io::read_full(0, &mut input);
    print(&input[0..got], &mut out);
}

// The sheet program: it reads an input and writes its sheet again, as the writer writes it, and then what follows the sheet, as it stood. No contract says what is read or written; what is to be
// believed stands in `resend`.
#![tactic(auto)]

// Kept beside the program `day`: the two read an input alike, in three lines, and print each what the other does not.
// Prints the sheet of an input, by way of a buffer that is lent for it, and the rest of the input; or the line of the refusal.
fn print(input: &[u8], out: &mut [u8]) {
    let answer = resend::resend(input, out);
    match answer {
        Ok(resent) => {
            let n = resent.length;
            let from = resent.from;
            if n <= out.len() {
                io::write_all(1, &out[0..n]);
            }
            if from <= input.len() {
                io::write_all(1, &input[from..input.len()]);
            }
        }
        Err(r) => {
            io::write_all(1, &printed_frames::refusal_line(r));
        }
    }
}

// One byte more than an input may have is read, so that one that is too long is seen.
fn main() {
    let mut input = [0u8; 65537];
    let mut out = [0u8; 16384];
    let got = io::read_full(0, &mut input);
    print(&input[0..got], &mut out);
}

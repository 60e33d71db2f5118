// Prints the MD5 and SHA-1 rows of RFC 2289, Appendix C, and the row of its parity check, as our generator
// and writers give them: algorithm, pass-phrase, seed, count, hex, six words, with tabs between. The file
// `stdout` beside src/ has the RFC's rows.
#![tactic(auto)]

use refusal::Written;
use std::io;

// What a writer put at the front of the buffer, on standard output.
fn show(to: io::Stdout, written: Written, buf: &[u8]) -> io::Result<()> {
    let Ok(n) = written else {
        return Ok(());
    };
    to.write_all(buf.get(..n).unwrap_or(buf))
}

fn both_texts(to: io::Stdout, p: u64) -> io::Result<()> {
    let mut hex = [0u8; 16];
    let written = hex_text::write_hex(p, &mut hex);
    show(to, written, &hex)?;
    print!(to; "\t")?;
    let mut words = [0u8; 29];
    let written = sixwords::spelling::write_words(p, &mut words);
    show(to, written, &words)
}

// A row but for what the generator makes of it. The algorithm has that number and name.
#[derive(Clone, Copy)]
struct Row {
    algorithm: u32,
    name: &'static str,
    phrase: &'static str,
    seed: &'static str,
    count: u32,
}

fn print_row(to: io::Stdout, row: Row) -> io::Result<()> {
    let Row {
        algorithm,
        name,
        phrase,
        seed,
        count,
    } = row;
    print!(to; "{name}\t{phrase}\t{seed}\t{count}\t")?;
    if let Ok(p) = generator::generate(algorithm, phrase.as_bytes(), seed.as_bytes(), count) {
        both_texts(to, p)?;
    }
    println!(to)
}

// The counts that Appendix C prints for each pass-phrase and seed.
fn print_counts(to: io::Stdout, row: Row) -> io::Result<()> {
    for count in [0, 1, 99] {
        print_row(to, Row { count, ..row })?;
    }
    Ok(())
}

// All that Appendix C prints for an algorithm.
fn print_appendix_c(to: io::Stdout, row: Row) -> io::Result<()> {
    for (phrase, seed) in [
        ("This is a test.", "TeSt"),
        ("AbCdEfGhIjK", "alpha1"),
        ("OTP's are good", "correct"),
    ] {
        print_counts(
            to,
            Row {
                phrase,
                seed,
                ..row
            },
        )?;
    }
    Ok(())
}

fn main(rt: HostRuntime) -> io::Result<()> {
    let to = rt.stdout();
    let parity = Row {
        algorithm: 1,
        name: "md5",
        phrase: "A_Valid_Pass_Phrase",
        seed: "AValidSeed",
        count: 99,
    };
    print_appendix_c(to, parity)?;
    print_appendix_c(
        to,
        Row {
            algorithm: 2,
            name: "sha1",
            ..parity
        },
    )?;
    print_row(to, parity)
}

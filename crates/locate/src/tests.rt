// Files that end at their first line, and the longest file.
use crate::report::report as report_on;
use std::process::Abort;
use std::test::Fail;

fn says(rt: &(impl Abort + AllocGlobal), file: &[u8], text: &str) -> Result<(), Fail> {
    let made = report_on(rt.alloc(), file)?;
    assert!(rt; made.as_str() == text);
    Ok(())
}

#[test]
fn first_lines(rt: HostRuntime) -> Result<(), Fail> {
    says(&rt, b"", "refused 12 at 1\n")?;
    says(&rt, b"L 3", "refused 12 at 1\n")?;
    says(&rt, b"\n", "refused 12 at 1\n")?;
    says(&rt, b"K 3\n", "refused 12 at 1\n")?;
    says(&rt, b"L  3\n", "refused 12 at 1\n")?;
    says(&rt, b"L 3 \n", "refused 12 at 1\n")?;
    says(&rt, b"L 0000003\n", "refused 12 at 1\n")?;
    says(&rt, b"L 0\n0\n", "refused 1 at 1\n")?;
    says(&rt, b"L 11\n0\n", "refused 1 at 1\n")?;
    says(&rt, b"L 11", "refused 12 at 1\n")?;
    says(&rt, b"L 000010\n", "located 0 refused 0\n")
}

#[test]
fn ends_of_the_hall(rt: HostRuntime) -> Result<(), Fail> {
    says(
        &rt,
        b"L 1\n1 1 1\n7\n2 0 0\n8\n",
        "cell 1 1 1 code 7\ncell 1 1 1 code 7\nrefused 3 at 4\nrefused 3 at 5\nlocated 2 refused 2\n",
    )?;
    says(
        &rt,
        b"L 2\n63\n64\n",
        "cell 3 3 3 code 63\nrefused 3 at 3\nlocated 1 refused 1\n",
    )
}

// `L 1` and then many lines of one code: 4 bytes and 2 for each.
fn long_file(rt: &HostRuntime, lines: usize) -> Result<Vec<u8>, Fail> {
    let mut file = Vec::from_slice(rt.alloc(), b"L 1\n")?;
    for _ in 0..lines {
        file.extend_from_slice(b"0\n")?;
    }
    Ok(file)
}

#[test]
fn longest_file(rt: HostRuntime) -> Result<(), Fail> {
    let mut file = long_file(&rt, 8190)?;
    assert!(rt; file.len() == 16_384);
    let text = report_on(rt.alloc(), file.as_slice())?;
    assert!(rt;
        text.len() == 8190 * "cell 0 0 0 code 0\n".len() + "located 8190 refused 0\n".len()
    );
    file.push(b'0')?;
    says(&rt, file.as_slice(), "refused 12 at 0\n")
}

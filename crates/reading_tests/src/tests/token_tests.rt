//! Texts and their tokens.
use ncl_base::Memory;
use ncl_token::{Token, TokenFault, Tokens};
use std::alloc::Global;
use std::test::Fail;

/// Texts, each with the kinds and places of its tokens, and with the bad byte that ends them, if one does.
static CASES: [(&[u8], &str); 58] = [
    // each kind of token
    (b"", ""),
    (b"_a$1 B9", "Word 0-4 Word 5-7"),
    (b"a(b)", "Word 0-1 LParen 1-2 Word 2-3 RParen 3-4"),
    (b",;.", "Comma 0-1 Semi 1-2 Dot 2-3"),
    (
        b"[]:{}",
        "LBracket 0-1 RBracket 1-2 Colon 2-3 Other 3-4 Other 4-5",
    ),
    (b"#=`", "Other 0-1 Other 1-2 Other 2-3"),
    (
        b"a[007:1]",
        "Word 0-1 LBracket 1-2 Number 2-5 Colon 5-6 Number 6-7 RBracket 7-8",
    ),
    (
        b"12 1_2 1a '1 1' 99999999999999999999",
        "Number 0-2 Other 3-6 Other 7-9 Other 10-12 Other 13-15 Number 16-36",
    ),
    (b"\\a+b$ x", "Escaped 0-6 Word 6-7"),
    (b"\\~!\n", "Escaped 0-4"),
    (b"\"a /* b\"\"\"c", "Other 0-8 Other 8-10 Word 10-11"),
    (b"8'hF_1,'b0", "Other 0-6 Comma 6-7 Other 7-10"),
    // the example of the document on netlist texts
    (
        b"TH12 u1(.A(\\x[0] )); // gate",
        "Word 0-4 Word 5-7 LParen 7-8 Dot 8-9 Word 9-10 LParen 10-11 Escaped 11-17 RParen 17-18 RParen 18-19 Semi 19-20",
    ),
    // white space, comments and attributes
    (b" \t\n\x0c\r", ""),
    (b"a\r\nb", "Word 0-1 Word 3-4"),
    (b"//x\r\ny", "Word 5-6"),
    (b"a//", "Word 0-1"),
    (b"// /* \nb", "Word 7-8"),
    (b"/**/a", "Word 4-5"),
    (b"/***/a", "Word 5-6"),
    (b"/*/*/a", "Word 5-6"),
    (b"/* // */a", "Word 8-9"),
    (b"(**)a", "Word 4-5"),
    (b"(***)a", "Word 5-6"),
    (b"(*)*)a", "Word 5-6"),
    (b"(* x=1 *)(a", "LParen 9-10 Word 10-11"),
    (b"a(*b*)/*c*/d", "Word 0-1 Word 11-12"),
    // bad bytes
    (b"/*", "bad 2"),
    (b"/*/", "bad 3"),
    (b"/* *", "bad 4"),
    (b" (*", "bad 3"),
    (b"(*)", "bad 3"),
    (b"(* *", "bad 4"),
    (b"/", "bad 0"),
    (b"/x", "bad 0"),
    (b" /", "bad 1"),
    (b"\\", "bad 1"),
    (b"\\ a", "bad 1"),
    (b"\\\n", "bad 1"),
    (b"\\a", "bad 2"),
    (b"\\a\x7f ", "bad 2"),
    (b"\\\x00", "bad 1"),
    (b"\\ab\xff", "bad 3"),
    (b"\"", "bad 1"),
    (b"\"a\n", "bad 3"),
    (b"\xff", "bad 0"),
    (b"\x00", "bad 0"),
    (b"\x0b", "bad 0"),
    (b"*)", "bad 0"),
    (b"$a", "bad 0"),
    (b"//\n-", "bad 3"),
    // bad bytes after tokens
    (b"a /*", "Word 0-1 bad 4"),
    (b"a/", "Word 0-1 bad 1"),
    (b"1a$", "Other 0-2 bad 2"),
    (b"12$", "Number 0-2 bad 2"),
    (b"( *a)", "LParen 0-1 bad 2"),
    (b"a\"\n", "Word 0-1 bad 3"),
    (b"\\a b\x00", "Escaped 0-3 Word 3-4 bad 4"),
];

/// How a token is told, with what comes before the next.
fn told_token(alloc: Global, token: Token) -> Result<String, Memory> {
    Ok(format!(in alloc; "{:?} {}-{} ", token.kind, token.start, token.end)?)
}

/// How an end is told after which the next call gives this.
fn told_end(
    alloc: Global,
    end: Result<Option<Token>, TokenFault>,
    next: Result<Option<Token>, TokenFault>,
) -> Result<String, Memory> {
    if next != end {
        return Ok(String::from_str(alloc, "another end at the next call")?);
    }
    match end {
        Err(TokenFault::BadByte(place)) => Ok(format!(in alloc; "bad {place}")?),
        Ok(_) => Ok(String::new(alloc)),
    }
}

/// The tokens of a text, and the bad byte that ends them, if one does, as the rows tell them; the end has to be the same when it
/// is asked once more.
fn told(alloc: Global, text: &[u8]) -> Result<String, Memory> {
    let mut told = String::new(alloc);
    let mut tokens = Tokens::new(text);
    for _ in 0..=text.len() {
        match tokens.next() {
            Ok(Some(token)) => told.push_str(&told_token(alloc, token)?)?,
            end => {
                told.push_str(&told_end(alloc, end, tokens.next())?)?;
                break;
            }
        }
    }
    Ok(told)
}

#[test]
fn texts_have_their_tokens(rt: HostRuntime) -> Result<(), Fail> {
    for &(text, wanted) in &CASES {
        let told = told(rt.alloc(), text)?;
        assert_eq!(rt; told.trim_end(), wanted);
    }
    Ok(())
}

/// Whether a text has so many tokens, and then answers 100,000 calls by its end, or by this bad byte.
fn ends_so(text: &[u8], count: usize, bad: Option<usize>) -> bool {
    let stop = bad.map_or(Ok(None), |place| Err(TokenFault::BadByte(place)));
    let mut tokens = Tokens::new(text);
    for _ in 0..count {
        if !matches!(tokens.next(), Ok(Some(_))) {
            return false;
        }
    }
    for _ in 0..100_000 {
        if tokens.next() != stop {
            return false;
        }
    }
    true
}

/// A front, a piece that stands so often behind it, and a back; how many tokens they are, and the bad byte that ends them, if one
/// does.
static LONG: [(&str, &str, usize, &str, usize, Option<usize>); 3] = [
    (
        "",
        "w1 /* a * b **/ (* c * d **) // e\n",
        6_000,
        "",
        6_000,
        None,
    ),
    ("w1 \"", "*/", 100_000, "", 1, Some(200_004)),
    ("/*", "**", 200_000, "/", 0, None),
];

/// A reader that looked at the bytes of a comment more than a few times each, or that looked for the end of
/// the string or of the comment again at each call, would look at billions of bytes here, and not end in the time of a test.
#[test]
fn long_texts_are_read_once(rt: HostRuntime) -> Result<(), Fail> {
    for &(front, piece, times, back, count, bad) in &LONG {
        let pieces = piece.repeat(rt.alloc(), times)?;
        let text = format!(in rt.alloc(); "{front}{pieces}{back}")?;
        assert!(rt; ends_so(text.as_bytes(), count, bad), "{front}{piece}");
    }
    Ok(())
}

use serve_command::{Said, read_words};
use std::alloc::{AllocError, Global};
use std::test::Fail;

// What words say that are parted by one space each.
fn read(alloc: Global, text: &str) -> Result<Option<Said>, AllocError> {
    let mut words = Vec::new(alloc);
    for word in text.split(' ') {
        words.push(String::from_str(alloc, word)?)?;
    }
    Ok(read_words(words.as_slice()))
}

// The address and the port that they say, and for how many connections.
fn told(alloc: Global, text: &str) -> Result<Option<(u32, u16, Option<usize>)>, AllocError> {
    let Some(said) = read(alloc, text)? else {
        return Ok(None);
    };
    let at = said.address;
    match said.bound {
        Some(bound) => Ok(Some((at.ip, at.port, Some(bound.count)))),
        None => Ok(Some((at.ip, at.port, None))),
    }
}

#[test]
fn words_say_where_to_listen_and_for_how_long(rt: HostRuntime) -> Result<(), Fail> {
    let alloc = rt.alloc();
    let endless = told(alloc, "serve 127.0.0.1:4450")?;
    assert_eq!(rt; endless, Some((0x7f00_0001, 4450, None)));
    let bounded = told(alloc, "serve 1.2.3.4:445 2 info")?;
    assert_eq!(rt; bounded, Some((0x0102_0304, 445, Some(2))));
    Ok(())
}

#[test]
fn other_words_say_nothing(rt: HostRuntime) -> Result<(), Fail> {
    let alloc = rt.alloc();
    assert!(rt; read_words(&[]).is_none());
    let others =
        "drill x, --help, serve, serve 1.2.3.4:0, serve 1.2.3.4:445 1, serve 1.2.3.4:445 0 info, serve 1.2.3.4:445 1 loud, ";
    for text in others.split(", ") {
        assert_eq!(rt; told(alloc, text)?, None, "{text}");
    }
    Ok(())
}

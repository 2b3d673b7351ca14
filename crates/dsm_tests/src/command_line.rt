// What the top call gets from the words of the command line.
use dsm_top::command_line::{arguments, words};
use std::env::{Env, FillError};
use std::test::Fail;

/// A command line of these arguments.
#[derive(Drop)]
struct Given<'a>(&'a [&'a [u8]]);

impl Env for Given<'_> {
    fn arg(&self, i: usize, buf: &mut [u8]) -> Result<usize, FillError> {
        let Some(argument) = self.0.get(i) else {
            return Err(FillError::NotPresent);
        };
        if argument.len() > buf.len() {
            return Err(FillError::TooLong);
        }
        buf[..argument.len()].copy_from_slice(argument);
        Ok(argument.len())
    }

    fn var(&self, _name: &str, _buf: &mut [u8]) -> Result<usize, FillError> {
        Err(FillError::NotPresent)
    }

    fn var_at(&self, _i: usize, _buf: &mut [u8]) -> Result<usize, FillError> {
        Err(FillError::NotPresent)
    }
}

// The name is left out, a long argument is read whole, and what is no text stands as U+FFFD.
#[test]
fn reads_the_words(rt: HostRuntime) -> Result<(), Fail> {
    let long = [b'x'; 300];
    let given: [&[u8]; 5] = [b"cashmere", b"sim", &long, b"", b"1x\xff"];
    let read = arguments(&Given(&given), rt.alloc())?;
    assert_eq!(rt; read.len(), 5);
    let Ok(words) = words(rt.alloc(), Ok(read)) else {
        return Err(Fail::from("no memory"));
    };
    assert_eq!(rt; words.len(), 4);
    assert_eq!(rt; words[0].as_str(), "sim");
    assert_eq!(rt; words[1].as_bytes(), long.as_slice());
    assert_eq!(rt; words[2].as_str(), "");
    assert_eq!(rt; words[3].as_str(), "1x\u{FFFD}");
    Ok(())
}

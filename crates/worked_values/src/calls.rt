// The words of a call, of the commands that the program serves and of those that it does not serve yet.

use apdu::Memory;
use std::alloc::Global;
use std::test::Fail;
use subcommands::{Subcommand, read_words};

fn read(alloc: Global, words: &[&str]) -> Result<Option<Subcommand>, Memory> {
    let mut owned = Vec::new(alloc);
    for word in words {
        owned.push(String::from_str(alloc, word)?)?;
    }
    read_words(alloc, owned.as_slice())
}

#[test]
fn words_of_commands(rt: HostRuntime) -> Result<(), Fail> {
    let alloc = rt.alloc();
    assert_eq!(rt; read(alloc, &["replay"])?, Some(Subcommand::Replay));
    assert_eq!(rt; read(alloc, &["run"])?, Some(Subcommand::Run));
    assert_eq!(rt; read(alloc, &["check"])?, Some(Subcommand::Check));
    let (seed, size) = (4_294_967_295, 250);
    assert_eq!(rt;
        read(alloc, &["gen", "4294967295", "250"])?,
        Some(Subcommand::Generate { seed, size })
    );
    let (seed, size) = (0, 1);
    assert_eq!(rt;
        read(alloc, &["bulk", "0000000000", "001"])?,
        Some(Subcommand::Bulk { seed, size })
    );
    Ok(())
}

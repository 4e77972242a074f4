// The library as the README shows it: a sheet is read, planned and played; and the whole run as one list of calls.
use law::{Answer, Call};
use sheet::{NO_MOVE, NO_ROW};
use tables::in_use;
use watch::Watch;
use worked::ask_house;

pub fn tour(rt: &HostRuntime, bytes: &[u8]) -> anyhow::Result<()> {
    let mut rows = [NO_ROW; 16];
    let mut moves = [NO_MOVE; 32];
    if let Ok(counts) = reader::read(bytes, &mut rows, &mut moves) {
        let mut watch = Watch::new(in_use(counts, &rows, &moves));
        println!(rt; "plan: {:?}", watch.plan())?;
        println!(rt; "open 0: {:?}", watch.open(0))?;
        println!(rt; "reply: {:?}", watch.reply())?;
        println!(rt; "report 1: {:?}", watch.report(1))?;
    }
    Ok(())
}

// The run of the house game from its start to its goal, whose answers are proved.
pub fn house_run(rt: &HostRuntime) -> anyhow::Result<()> {
    let calls = [
        Call::Plan,
        Call::Open(0),
        Call::Reply,
        Call::Report(1),
        Call::Reply,
        Call::Report(0),
        Call::Look,
    ];
    let mut answers = [Answer::Barred(0); 7];
    let count = ask_house(&calls, &mut answers);
    for answer in answers.iter().take(count) {
        println!(rt; "{answer:?}")?;
    }
    Ok(())
}

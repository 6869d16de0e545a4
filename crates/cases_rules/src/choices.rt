// The options of an option number: code values, meanings, and the word for what became of dates.
use options::Opt;
use std::io;

pub fn all(rt: &impl Print) -> io::Result<()> {
    rt.write_all(&Opt::basic_code())?;
    print!(rt; ": ")?;
    written(rt, |out| Opt::put_basic_meaning(out, 0))?;
    println!(rt)?;
    for number in [0, 1, 2, 4, 8, 16, 32, 37, 58] {
        case(rt, number)?;
    }
    Ok(())
}

fn case(rt: &impl Print, number: u64) -> io::Result<()> {
    print!(rt; "number {number}: ")?;
    for bit in 0..Opt::COUNT {
        if let Some(option) = Opt::at(number, bit) {
            rt.write_all(&option.code())?;
            print!(rt; " ")?;
            written(rt, |out| option.put_meaning(out, 0))?;
            print!(rt; ", ")?;
        }
    }
    written(rt, |out| options::put_date_word(number, out, 0))?;
    println!(rt)
}

// What a function writes at the beginning of a buffer.
fn written<F: FnOnce(&mut [u8]) -> usize>(rt: &impl Print, put: F) -> io::Result<()>
    requires { F.IsAlwaysCallable put }
{
    let mut out = [0u8; 64];
    let to = put(&mut out);
    if let Some(text) = out.get(..to) {
        rt.write_all(text)?;
    }
    Ok(())
}

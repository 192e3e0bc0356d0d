use crate::words::Words;
use osc_clock::{Osc, RateRow};
use std::alloc::{AllocError, Global};

/// How many ticks there are by each time.
pub(crate) fn ticks(
    alloc: Global,
    words: &mut Words<'_>,
    told: &mut String,
) -> Result<(), AllocError> {
    let Some(osc) = oscillator(alloc, words)? else {
        words.skip_all();
        return told.push_str("no oscillator");
    };
    told.push_str("ticks")?;
    for _time in 0..words.most() {
        if words.is_empty() {
            break;
        }
        write!(told, " {}", osc.ticks_until(words.number(0, u64::MAX)))?;
    }
    Ok(())
}

/// When each tick is.
pub(crate) fn instants(
    alloc: Global,
    words: &mut Words<'_>,
    told: &mut String,
) -> Result<(), AllocError> {
    let Some(osc) = oscillator(alloc, words)? else {
        words.skip_all();
        return told.push_str("no oscillator");
    };
    told.push_str("instants")?;
    for _tick in 0..words.most() {
        if words.is_empty() {
            break;
        }
        write!(told, " {}", osc.instant_of(words.number(1, u64::MAX)))?;
    }
    Ok(())
}

/// The oscillator that three words say.
pub(crate) fn oscillator(alloc: Global, words: &mut Words<'_>) -> Result<Option<Osc>, AllocError> {
    let (phase, period) = (words.number(0, u64::MAX), words.number(0, u64::MAX));
    match words.next_group() {
        "-" => Ok(Osc::new(phase, period)),
        "none" => Ok(Osc::with_rates(phase, period, &[])),
        rates => {
            let mut rates = Words::new(rates);
            let rows = rate_rows(alloc, &mut rates)?;
            if !rates.are_read() {
                words.refuse();
            }
            Ok(Osc::with_rates(phase, period, &rows))
        }
    }
}

fn rate_rows(alloc: Global, rates: &mut Words<'_>) -> Result<Vec<RateRow>, AllocError> {
    let mut rows = Vec::new(alloc);
    for _row in 0..rates.most() {
        if rates.is_empty() {
            break;
        }
        rows.push(RateRow {
            tick: rates.number(0, u64::MAX),
            period_fs: rates.number(0, u64::MAX),
        })?;
    }
    Ok(rows)
}

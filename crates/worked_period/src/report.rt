// What the program prints: the period, a line for each minute, and the totals.
use arith::division::divide;
use arith::divisor::Divisor;
use quarter_hour::draft::QuarterHour;
use quarter_hour::minute::{PrintedMinute, WorkedMinute};
use quarter_hour::working::{kilowatt_hours, net_sum, totals, work};
use settlement::factor::Factor;
use settlement::figures::reference_figures;
use settlement::terms::Terms;

// Whole MWh and the thousandths of an energy in kWh.
fn megawatt_hours(kilowatt_hours: i64) -> (i64, u64) {
    divide(kilowatt_hours, Divisor { value: 1_000 })
}

// A quarter of an hour with its terms, and where it is printed.
#[derive(Drop)]
struct Report<'a> {
    rt: &'a HostRuntime,
    quarter: &'a QuarterHour,
    terms: Terms,
}

impl Report<'_> {
    fn show_period(&self) -> anyhow::Result<()> {
        let metered = self.quarter.metered.kilowatt_hours;
        let level = self.terms.level.kilowatts;
        let net = self.terms.factor.net_sum.value;
        let certified = self.terms.factor.certified_sum;
        println!(self.rt; "certified meter {metered} kWh, instructed level {level} kW")?;
        println!(self.rt; "net sum N {net} halves, certified sum A {certified} halves")?;
        println!(self.rt; "")?;
        println!(self.rt;
            "                                   areas in halves       upward MWh          downward MWh     within"
        )?;
        println!(self.rt;
            "minute    net kW certified      upward    downward    worked   printed    worked   printed  1 kWh"
        )?;
        Ok(())
    }

    // An area as worked, beside the energy that is printed for it, both in MWh.
    fn show_energy(&self, area: i64, printed: u32) -> anyhow::Result<()> {
        for energy in [kilowatt_hours(area), i64::from(printed)] {
            let (whole, thousandths) = megawatt_hours(energy);
            print!(self.rt; " {whole:>5}.{thousandths:03}")?;
        }
        Ok(())
    }

    fn show_minute(
        &self,
        number: usize,
        printed: PrintedMinute,
        worked: WorkedMinute,
    ) -> anyhow::Result<()> {
        let net = printed.net.kilowatts;
        let certified = worked.certified;
        let upward = worked.areas.upward;
        let downward = worked.areas.downward;
        let within = if worked.agrees { "yes" } else { "NO" };
        print!(self.rt; "{number:>6} {net:>9} {certified:>9} {upward:>11} {downward:>11}")?;
        self.show_energy(upward, printed.upward)?;
        self.show_energy(downward, printed.downward)?;
        println!(self.rt; "  {within}")?;
        Ok(())
    }

    // The lines of the minutes; how many of them are those printed to 1 kWh.
    fn show_minutes(&self) -> anyhow::Result<usize> {
        let worked = self
            .quarter
            .minutes
            .map(|printed| work(self.terms, printed));
        for (number, (printed, worked)) in (1..).zip(self.quarter.minutes.iter().zip(&worked)) {
            self.show_minute(number, *printed, *worked)?;
        }
        Ok(worked.iter().filter(|minute| minute.agrees).count())
    }

    fn show_totals(&self) -> anyhow::Result<()> {
        let sums = totals(self.terms, &self.quarter.minutes);
        let upward = sums.upward;
        let downward = sums.downward;
        let (up, ups) = megawatt_hours(kilowatt_hours(upward));
        let (down, downs) = megawatt_hours(kilowatt_hours(downward));
        println!(self.rt;
            " total                     {upward:>11} {downward:>11} {up:>5}.{ups:03}           {down:>5}.{downs:03}"
        )?;
        Ok(())
    }
}

pub(crate) fn show(rt: &HostRuntime, quarter: &QuarterHour) -> anyhow::Result<()> {
    let terms = Terms {
        factor: Factor::new(net_sum(&quarter.minutes), quarter.metered)?,
        level: quarter.level,
    };
    let report = Report { rt, quarter, terms };
    report.show_period()?;
    let within = report.show_minutes()?;
    report.show_totals()?;
    println!(rt; "")?;
    println!(rt; "{within} of 15 minutes within 1 kWh of the printed table")?;
    let figures = if reference_figures() {
        "all hold"
    } else {
        "do NOT hold"
    };
    println!(rt; "reference figures: {figures}")?;
    Ok(())
}
